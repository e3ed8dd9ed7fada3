// Lua 5.3.6.
pub mod columns;
pub mod opcodes;
pub mod packed;
pub mod word;
