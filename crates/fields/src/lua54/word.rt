// The fields of a word (document 01, "Word fields", RULES 1; the Rust's RawInstruction54::decode).
ghost use Rattle.std.specs.Prelude.{◌≡◌};
ghost use Rattle.fields.specs.lua54.Word.{fields_of, opcode_of, k_of, bx_of, ax_of};

use crate::bits::signed;

// The Rust's `opcode`, an Option, is left out: an opcode is known exactly if its
// number is at most OP_EXTRAARG.
#[derive(Clone, Copy)]
pub struct RawInstruction54 {
    pub opcode_num: u8,
    pub a: u8,
    pub k: u8,
    pub b: u8,
    pub sb: i32,
    pub c: u8,
    pub sc: i32,
    pub bx: u32,
    pub sbx: i32,
    pub ax: u32,
    pub sj: i32,
}

const OFFSET_SB: u32 = 127;

const OFFSET_SC: u32 = 127;

const OFFSET_SBX: u32 = 65535;

// JMP's distance is Ax less this.
pub const OFFSET_SJ: u32 = 16777215;

pub fn decode(word: u32) -> RawInstruction54
    ensures { result ≡ fields_of word }
{
    let b = word / 65536 % 256;
    let c = word / 16777216 % 256;
    let bx = word / 32768 % 131072;
    let ax = word / 128 % 33554432;
    RawInstruction54 {
        opcode_num: (word % 128) as u8,
        a: (word / 128 % 256) as u8,
        k: (word / 32768 % 2) as u8,
        b: b as u8,
        sb: signed(b, OFFSET_SB),
        c: c as u8,
        sc: signed(c, OFFSET_SC),
        bx,
        sbx: signed(bx, OFFSET_SBX),
        ax,
        sj: signed(ax, OFFSET_SJ),
    }
}

// The fields that decide where control goes, one at a time.

pub fn opcode(word: u32) -> u8
    ensures { result ≡ opcode_of word }
{
    (word % 128) as u8
}

pub fn k(word: u32) -> u8
    ensures { result ≡ k_of word }
{
    (word / 32768 % 2) as u8
}

pub fn bx(word: u32) -> u32
    ensures { result ≡ bx_of word }
{
    word / 32768 % 131072
}

pub fn ax(word: u32) -> u32
    ensures { result ≡ ax_of word }
{
    word / 128 % 33554432
}
