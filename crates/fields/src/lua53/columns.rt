// The numbers of 5.3's step classes and companions. specs/lua53/Table.antt says what each means.
// Kept: numbers, no enum. Each is half of a packed byte (packed.rt), as in the table of 5.4.

pub const FOLLOWING: u8 = 0;

pub const RETURNING: u8 = 1;

pub const BRANCHING: u8 = 2;

pub const COMPARING: u8 = 3;

pub const SKIPPING: u8 = 4;

pub const SKIPPING_IF_C: u8 = 5;

pub const SKIPPING_UNLESS_C: u8 = 6;

pub const JUMPING: u8 = 7;

pub const LOOPING: u8 = 8;

pub const INVALID: u8 = 9;

pub const ALONE: u8 = 0;

pub const JUMP_AFTER: u8 = 1;

pub const EXTRA_AFTER: u8 = 2;

pub const EXTRA_AFTER_UNLESS_C: u8 = 3;

pub const LOOP_AFTER: u8 = 4;
