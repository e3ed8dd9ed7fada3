// The numbers that stand in the opcode table, a group for each column. specs/lua54/Table.antt says what each
// means.
// Kept: numbers, no enum. Document 01 asks for one constant table of 512 numbers, and C gets them as they
// are.

pub const NO_MODE: u8 = 0;

pub const IABC: u8 = 1;

pub const IABX: u8 = 2;

pub const IASBX: u8 = 3;

pub const IAX: u8 = 4;

pub const ISJ: u8 = 5;

pub const FOLLOWING: u8 = 0;

pub const RETURNING: u8 = 1;

pub const BRANCHING: u8 = 2;

pub const SKIPPING: u8 = 3;

pub const SKIPPING_IF_K: u8 = 4;

pub const JUMPING: u8 = 5;

pub const LOOPING: u8 = 6;

pub const PREPARING: u8 = 7;

pub const ENTERING: u8 = 8;

pub const INVALID: u8 = 9;

pub const ALONE: u8 = 0;

pub const METAMETHOD_AFTER: u8 = 1;

pub const ARITHMETIC_BEFORE: u8 = 2;

pub const JUMP_AFTER: u8 = 3;

pub const EXTRA_AFTER: u8 = 4;

pub const EXTRA_AFTER_IF_K: u8 = 5;

pub const CALL_AT_TARGET: u8 = 6;

pub const LOOP_AFTER: u8 = 7;

// An event's own number, 0 to 24, is a fallback rule too.
pub const BY_C: u8 = 26;

pub const NO_FALLBACK: u8 = 27;
