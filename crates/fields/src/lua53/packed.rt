// The columns of 5.3's opcode table as numbers in the code, a byte for each opcode.
// Kept: apart from 5.4's, since each version has a folder of its own (CONTRIBUTING); they share `bits::byte`.
ghost use Rattle.std.specs.Prelude.{◌≡◌, ◌<◌};
ghost use Rattle.fields.specs.lua53.Word.{opcode_of};
ghost use Rattle.fields.specs.Bits.{eight_of};
ghost use Rattle.fields.specs.lua53.Table.{companion_and_class, mode_byte};

use crate::bits::byte;

// Eight opcodes from 8 * block on, a byte each, the first lowest: 16 times the companion
// wanted, plus the step class.
fn eight_steps(block: u32) -> u64
    requires { block < 8 }
    ensures { result ≡ eight_of companion_and_class block }
{
    match block {
        // OP_MOVE to OP_GETTABLE
        0 => 0x0000000005240000,
        // OP_SETTABUP to OP_MUL
        1 => 0x0000000000000000,
        // OP_MOD to OP_SHL
        2 => 0x0000000000000000,
        // OP_SHR to OP_EQ
        3 => 0x1307000000000000,
        // OP_LT to OP_FORLOOP
        4 => 0x0801000012121313,
        // OP_FORPREP to 47
        5 => 0x0909000036084007,
        // unknown
        6 => 0x0909090909090909,
        // unknown
        _ => 0x0909090909090909,
    }
}

// The same opcodes' modes.
fn eight_modes(block: u32) -> u64
    requires { block < 8 }
    ensures { result ≡ eight_of mode_byte block }
{
    match block {
        // OP_MOVE to OP_GETTABLE
        0 => 0x0101010101020201,
        // OP_SETTABUP to OP_MUL
        1 => 0x0101010101010101,
        // OP_MOD to OP_SHL
        2 => 0x0101010101010101,
        // OP_SHR to OP_EQ
        3 => 0x0103010101010101,
        // OP_LT to OP_FORLOOP
        4 => 0x0301010101010101,
        // OP_FORPREP to 47
        5 => 0x0004010201030103,
        // unknown
        6 => 0x0000000000000000,
        // unknown
        _ => 0x0000000000000000,
    }
}

// 16 times the number of the companion that a word's opcode wants, plus that of its step class.
#[tactic(auto, using(crate::proofs::Bytes53::steps_byte))]
pub fn companion_and_class(word: u32) -> u8
    ensures { result ≡ companion_and_class (opcode_of word) }
{
    let opcode = word % 64;
    byte(eight_steps(opcode / 8), opcode)
}

// The mode of a word's opcode, as specs/lua53/Table.antt numbers them; 0 for an unknown one.
#[tactic(auto, using(crate::proofs::Bytes53::mode_byte_at))]
pub fn mode(word: u32) -> u8
    ensures { result ≡ mode_byte (opcode_of word) }
{
    let opcode = word % 64;
    byte(eight_modes(opcode / 8), opcode)
}
