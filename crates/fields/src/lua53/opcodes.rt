// The 47 opcodes, named and numbered as lopcodes.h of Lua 5.3.6 has them.
// Kept: numbers, no enum. Six bits of a word hold 64 values, and C gets an unknown one as it is.
ghost use Rattle.std.specs.Prelude.{◌≡◌};
ghost use Rattle.fields.specs.lua53.Opcodes.{«OpCode»};

pub const OP_MOVE: u8 = 0;

pub const OP_LOADK: u8 = 1;

pub const OP_LOADKX: u8 = 2;

pub const OP_LOADBOOL: u8 = 3;

pub const OP_LOADNIL: u8 = 4;

pub const OP_GETUPVAL: u8 = 5;

pub const OP_GETTABUP: u8 = 6;

pub const OP_GETTABLE: u8 = 7;

pub const OP_SETTABUP: u8 = 8;

pub const OP_SETUPVAL: u8 = 9;

pub const OP_SETTABLE: u8 = 10;

pub const OP_NEWTABLE: u8 = 11;

pub const OP_SELF: u8 = 12;

pub const OP_ADD: u8 = 13;

pub const OP_SUB: u8 = 14;

pub const OP_MUL: u8 = 15;

pub const OP_MOD: u8 = 16;

pub const OP_POW: u8 = 17;

pub const OP_DIV: u8 = 18;

pub const OP_IDIV: u8 = 19;

pub const OP_BAND: u8 = 20;

pub const OP_BOR: u8 = 21;

pub const OP_BXOR: u8 = 22;

pub const OP_SHL: u8 = 23;

pub const OP_SHR: u8 = 24;

pub const OP_UNM: u8 = 25;

pub const OP_BNOT: u8 = 26;

pub const OP_NOT: u8 = 27;

pub const OP_LEN: u8 = 28;

pub const OP_CONCAT: u8 = 29;

pub const OP_JMP: u8 = 30;

pub const OP_EQ: u8 = 31;

pub const OP_LT: u8 = 32;

pub const OP_LE: u8 = 33;

pub const OP_TEST: u8 = 34;

pub const OP_TESTSET: u8 = 35;

pub const OP_CALL: u8 = 36;

pub const OP_TAILCALL: u8 = 37;

pub const OP_RETURN: u8 = 38;

pub const OP_FORLOOP: u8 = 39;

pub const OP_FORPREP: u8 = 40;

pub const OP_TFORCALL: u8 = 41;

pub const OP_TFORLOOP: u8 = 42;

pub const OP_SETLIST: u8 = 43;

pub const OP_CLOSURE: u8 = 44;

pub const OP_VARARG: u8 = 45;

pub const OP_EXTRAARG: u8 = 46;

const OPCODES: [u8; 47] = [
    OP_MOVE,
    OP_LOADK,
    OP_LOADKX,
    OP_LOADBOOL,
    OP_LOADNIL,
    OP_GETUPVAL,
    OP_GETTABUP,
    OP_GETTABLE,
    OP_SETTABUP,
    OP_SETUPVAL,
    OP_SETTABLE,
    OP_NEWTABLE,
    OP_SELF,
    OP_ADD,
    OP_SUB,
    OP_MUL,
    OP_MOD,
    OP_POW,
    OP_DIV,
    OP_IDIV,
    OP_BAND,
    OP_BOR,
    OP_BXOR,
    OP_SHL,
    OP_SHR,
    OP_UNM,
    OP_BNOT,
    OP_NOT,
    OP_LEN,
    OP_CONCAT,
    OP_JMP,
    OP_EQ,
    OP_LT,
    OP_LE,
    OP_TEST,
    OP_TESTSET,
    OP_CALL,
    OP_TAILCALL,
    OP_RETURN,
    OP_FORLOOP,
    OP_FORPREP,
    OP_TFORCALL,
    OP_TFORLOOP,
    OP_SETLIST,
    OP_CLOSURE,
    OP_VARARG,
    OP_EXTRAARG,
];

// All opcodes: its contract holds each name here against the definitions'.
pub fn enumeration() -> [u8; 47]
    ensures { result ≡ «OpCode» }
{
    OPCODES
}
