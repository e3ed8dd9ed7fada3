// The parts of a record as plain numbers, as include/RECORD.md has them.
#![tactic(auto)]

mod numbers;
mod parts;

pub use parts::{Flat, FlatPair, FlatSlot};
