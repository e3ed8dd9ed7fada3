// Over runs: up to four scripts take turns on one controller, and the longest wait of each (request C-21,
// "Rehearsing a set of scripts"). In the field's terms a schedule simulation, round robin with a quantum.
#![tactic(auto)]

mod acceptance;
pub mod c;
pub mod machine;
mod queue;
pub mod rehearsing;
mod rotation;
mod tallies;
mod turn;

pub use rehearsing::{Waits, rehearse};
