// Lua 5.4.8.
pub mod columns;
pub mod events;
pub mod lookup;
pub mod opcodes;
pub mod packed;
mod table;
pub mod word;
