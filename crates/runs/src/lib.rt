// Layer 2, over steps: scripts of either version, and the longest run without a service.
#![tactic(auto)]

pub mod c;
pub mod inner;
pub mod longest;
pub mod script;
pub mod weighing;

pub use longest::{Longest, longest_run};
