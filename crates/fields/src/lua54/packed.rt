// Three columns of the opcode table as numbers in the code, for single calls. A read of the constant table
// copies all of it, 10 to 20 ns; this is a load. Loops lend a copy of the table instead (`lookup`);
// both are proved to say what the table's definition says.
ghost use Rattle.std.specs.Prelude.{◌≡◌, ◌<◌};
ghost use Rattle.fields.specs.lua54.Word.{opcode_of};
ghost use Rattle.fields.specs.lua54.Packed.{companion_and_class, rule_of};
ghost use Rattle.fields.specs.Bits.{eight_of};

use crate::bits::byte;

// Eight opcodes from 8 * block on, a byte each, the first lowest: 16 times the companion wanted,
// plus the step class. The unknown blocks stand one by one too: the feed then loads one byte, with no
// test of the block before it.
fn eight_steps(block: u32) -> u64
    requires { block < 16 }
    ensures { result ≡ eight_of companion_and_class block }
{
    match block {
        // OP_MOVE to OP_LOADTRUE
        0 => 0x0003004300000000,
        // OP_LOADNIL to OP_SETTABUP
        1 => 0x0000000000000000,
        // OP_SETTABLE to OP_SUBK
        2 => 0x1212120043000000,
        // OP_MULK to OP_BXORK
        3 => 0x1212121212121212,
        // OP_SHRI to OP_DIV
        4 => 0x1212121212121212,
        // OP_IDIV to OP_MMBINI
        5 => 0x2020121212121212,
        // OP_MMBINK to OP_TBC
        6 => 0x0000000000000020,
        // OP_JMP to OP_LEI
        7 => 0x3232323232323205,
        // OP_GTI to OP_RETURN0
        8 => 0x0101010032323232,
        // OP_RETURN1 to OP_CLOSURE
        9 => 0x0054067068070601,
        // OP_VARARG to 87
        10 => 0x0909090909090000,
        // unknown
        11 => 0x0909090909090909,
        12 => 0x0909090909090909,
        13 => 0x0909090909090909,
        14 => 0x0909090909090909,
        _ => 0x0909090909090909,
    }
}

// The same opcodes' fallback rules.
pub(crate) fn eight_fallbacks(block: u32) -> u64
    requires { block < 16 }
    ensures { result ≡ eight_of rule_of block }
{
    match block {
        // OP_LOADNIL to OP_SETTABUP
        1 => 0x01000000001b1b1b,
        // OP_SETTABLE to OP_SUBK
        2 => 0x1b1b1b001b010101,
        // OP_IDIV to OP_MMBINI
        5 => 0x1a1a1b1b1b1b1b1b,
        // OP_MMBINK to OP_TBC
        6 => 0x181b16041b13121a,
        // OP_GTI to OP_RETURN0
        8 => 0x1b1b17171b1b1b1b,
        // all others have none
        _ => 0x1b1b1b1b1b1b1b1b,
    }
}

// 16 times the number of the companion that a word's opcode wants, plus that of its step class.
#[tactic(auto, using(crate::proofs::Bytes::steps_byte))]
pub fn companion_and_class(word: u32) -> u8
    ensures { result ≡ companion_and_class (opcode_of word) }
{
    let opcode = word % 128;
    byte(eight_steps(opcode / 8), opcode)
}
