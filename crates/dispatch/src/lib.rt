// Layer 4, over the families: which family of lifter.rs lifts which opcode.
#![tactic(auto)]

mod dispatch;
pub mod inner;
