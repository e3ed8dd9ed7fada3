// Over chunk: one function of a chunk, by its number or by its place: its words, lines and head.
#![tactic(auto)]

mod choosing;
mod heads;
mod lines;
mod words;

pub use choosing::Choice;
pub use heads::{FlatHead, head_by, head_from};
pub use lines::{LinePlaces, lines_by};
pub use words::words_by;
