// Layer 4, beneath the arms of lifter.rs: the lists that they push, and what several of them share.
#![tactic(auto)]

pub mod builders;
pub mod parts;
