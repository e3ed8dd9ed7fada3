// Document 01, "Refused inputs", RULES 8: the limits. specs/Limits.antt has the same for definitions.

// Number 1: so many words pass.
pub const MOST_WORDS: usize = 32768;

// Number 2: so many constants pass.
pub const MOST_CONSTANTS: usize = 65536;

// Number 5: so many names pass.
pub const MOST_NAMES: usize = 255;

// Number 13: so many lines of a sheet pass.
pub const MOST_LINES: usize = 4096;

// Number 12: a line of a sheet is a word, of 32 bits.
pub const MOST_WORD: u64 = 4294967295;

// Number 20: scripts have the numbers 0 to this.
pub const LAST_SCRIPT: u32 = 3;

// Number 21: a budget is 1 to this.
pub const MOST_BUDGET: u32 = 16777216;

// Number 23: so many scripts are rehearsed.
pub const MOST_SCRIPTS: usize = 4;

// Number 23: a turn's q is 1 to this.
pub const MOST_QUANTUM: u32 = 1000;

// Document 01, "Meter", RULES 4: a meter's services stay at this.
pub const MOST_SERVICES: u32 = 4294967295;

// Number 11: a meter's count is at most so much for each word up to the last (request C-17).
pub const HEAVIEST_WEIGHT: usize = 255;

// Number 15: a chunk's bytes (request C-11).
pub const MOST_BYTES: usize = 4294967295;

// Number 16: the reader goes down 32 levels, and the main function is the first (request C-11).
pub const LEVELS_BELOW: u32 = 31;

// Number 15: MAX_SIZET and INT_MAX, what loadSize and loadInt hand to loadUnsigned.
pub const SIZE_MAX: usize = 18446744073709551615;

pub const INT_MAX: usize = 2147483647;

// LUAI_MAXSHORTLEN.
pub const SHORT_LENGTH: usize = 40;

// Registers are numbers of 16 bits, so many of them (request C-14).
pub const MOST_REGISTERS: usize = 65536;

// The owner's command: bytes of a file, more are refused by 15, and functions in it, more are refused by 6.
pub const FILE_BYTES: usize = 4194304;

pub const MOST_FUNCTIONS: usize = 131072;
