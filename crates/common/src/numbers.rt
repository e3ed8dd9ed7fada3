// Document 01, "Refused inputs", RULES 8, and document 02: each condition's number, by name.
// specs/Numbers.antt has the same for definitions.
// Kept: C and the output of programs have these numbers. Code names a refusal by `Refusal`.

pub const ACCEPTED: u8 = 0;

// More than 32,768 words.
pub const TOO_MANY_WORDS: u8 = 1;

// Tag and payload counts differ, or over 65,536.
pub const CONSTANT_COUNT: u8 = 2;

// Unknown tag.
pub const UNKNOWN_TAG: u8 = 3;

// A string ends past the string bytes.
pub const STRING_PAST_BYTES: u8 = 4;

// Over 255 names, or a name past the string bytes.
pub const NAMES: u8 = 5;

// A lent result slice shorter than the words.
pub const SHORT_SLICE: u8 = 6;

// No words.
pub const NO_WORDS: u8 = 7;

// A reachable bad word.
pub const REACHES_INVALID: u8 = 8;

// The fed word is n or more, or no step from the last, or the first is not 0.
pub const NO_STEP: u8 = 10;

// The meter is not of this function, or its highest is below its count.
pub const FOREIGN_METER: u8 = 11;

// A sheet's line is malformed or over 4,294,967,295.
pub const MALFORMED_LINE: u8 = 12;

// Line 4,097 exists.
pub const TOO_MANY_LINES: u8 = 13;

// Request C-11: a header byte of a chunk differs.
pub const HEADER_DIFFERS: u8 = 14;

// Request C-11: a chunk ends early, or has a count or a number over its limit, an absent constant string, too
// many bytes or no such function.
pub const MALFORMED_CHUNK: u8 = 15;

// Request C-11: a chunk's functions need a level 33.
pub const TOO_DEEP: u8 = 16;

// Request C-15: a register is read that is no parameter and that some path has not set.
pub const UNSET_REGISTER: u8 = 17;

// Request C-17: a weight count other than 128, or a weight of 0.
pub const WEIGHTS_REFUSED: u8 = 18;

// Request C-18: a low weight above its high.
pub const LOW_ABOVE_HIGH: u8 = 19;

// Request C-20: a script number above 3.
pub const NO_SCRIPT: u8 = 20;

// Request C-20: a budget that is not 1 to 16,777,216.
pub const BUDGET_RANGE: u8 = 21;

// Request C-20: after the feed the sum of the counts would be above the budget.
pub const OVER_BUDGET: u8 = 22;

// Request C-21: a script count, q or choice out of range.
pub const OUT_OF_RANGE: u8 = 23;
