// A weights file: a line for each opcode that does not weigh 1, its name as lopcodes.h of Lua 5.4.8 has it
// and its weight, as `CONCAT 40`.
#![tactic(auto)]

mod lines;

pub use lines::{BadLine, read_weights};
