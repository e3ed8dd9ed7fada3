// The metamethod events that the opcode table names, numbered as ltm.h has them.
// Kept: numbers, no enum, since they stand in the table of 512 numbers that document 01 asks for.

pub const TM_INDEX: u8 = 0;

pub const TM_NEWINDEX: u8 = 1;

pub const TM_LEN: u8 = 4;

pub const TM_UNM: u8 = 18;

pub const TM_BNOT: u8 = 19;

pub const TM_CONCAT: u8 = 22;

pub const TM_CALL: u8 = 23;

pub const TM_CLOSE: u8 = 24;
