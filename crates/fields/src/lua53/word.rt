// The fields of a word of Lua 5.3.6 (request C-24).
// Kept: apart from 5.4's, since each version has a folder of its own (CONTRIBUTING); they share
// `bits::signed`.
ghost use Rattle.std.specs.Prelude.{◌≡◌};
ghost use Rattle.fields.specs.lua53.Word.{fields_of, opcode_of, a_of, c_of, bx_of};

use crate::bits::signed;

// No Rust record has these fields. An opcode is known exactly if its number is at most OP_EXTRAARG.
#[derive(Drop)]
pub struct RawInstruction53 {
    pub opcode_num: u8,
    pub a: u8,
    pub b: u16,
    pub c: u16,
    pub bx: u32,
    pub sbx: i32,
    pub ax: u32,
}

// A jump's distance is Bx less this.
pub const OFFSET_SBX: u32 = 131071;

pub fn decode(word: u32) -> RawInstruction53
    ensures { result ≡ fields_of word }
{
    let bx = word / 16384 % 262144;
    RawInstruction53 {
        opcode_num: (word % 64) as u8,
        a: (word / 64 % 256) as u8,
        b: (word / 8388608 % 512) as u16,
        c: (word / 16384 % 512) as u16,
        bx,
        sbx: signed(bx, OFFSET_SBX),
        ax: word / 64 % 67108864,
    }
}

// The fields that decide where control goes, one at a time.

pub fn opcode(word: u32) -> u8
    ensures { result ≡ opcode_of word }
{
    (word % 64) as u8
}

pub fn a(word: u32) -> u8
    ensures { result ≡ a_of word }
{
    (word / 64 % 256) as u8
}

pub fn c(word: u32) -> u16
    ensures { result ≡ c_of word }
{
    (word / 16384 % 512) as u16
}

pub fn bx(word: u32) -> u32
    ensures { result ≡ bx_of word }
{
    word / 16384 % 262144
}
