// Layer 4: the records of lifter.rs, one per word, in the caller's list.
#![tactic(auto)]

pub mod inner;
pub mod lift;
pub mod walk;
mod word;
