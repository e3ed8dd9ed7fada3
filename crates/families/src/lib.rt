// Layer 4, its middle: what each arm of lifter.rs on loads, arithmetic and control says of a decoded word.
#![tactic(auto)]

pub mod arithmetic;
pub mod control;
pub mod loads;
