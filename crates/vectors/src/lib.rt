// Vectors: what the test programs are given on standard input. A line is one question, its parts apart by
// bars: the question's name, the label that is printed, then lists of numbers. In a list `70` is a number and
// `3*9` the same number three times. A line whose name is no question (a blank one, a remark) is passed over;
// one that ends in a backslash leaves the line that it prints open for the next.
#![tactic(auto)]

mod asking;
pub mod inner;
mod lists;
mod parts;

pub use lists::Element;
pub use parts::{is_open, list_of, number_of, part};

// Room for one word more than pass, and for their marks.
pub const ROOM: usize = 32769;
