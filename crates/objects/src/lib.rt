// Layer 4, its middle: what each arm of lifter.rs on tables, upvalues, closures and calls says of a decoded
// word.
#![tactic(auto)]

pub mod calls;
pub mod tables;
