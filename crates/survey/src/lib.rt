// The program that lists the functions of a compiled script, without its input and output:
// from a chunk's bytes to the line of a function.
#![tactic(auto)]

mod lines;
mod paper;
mod run;

pub use lines::line;
pub use paper::{buffer, line_page};
