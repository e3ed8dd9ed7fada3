// Over sweep: the lengths by two tables at once (request C-18), for crates here that settle entries.
#![tactic(auto)]

pub mod inner;
mod passes;
