// One search for a block of registers: which of them are not set on some way to each word. For `assignment`.
#![tactic(auto)]

pub mod inner;
mod ranges;
mod search;
mod waiting;
