// The bench program's text: a sheet of words in, the lines of the listing out. Nothing
// here knows what a word means.
#![tactic(auto)]

mod digits;
mod lines;
mod reading;
mod writing;

pub use reading::read;
pub use writing::{column, last_line, refusal_line, row};
