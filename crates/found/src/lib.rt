// What is found of a function, the rows of its longest run, and how it goes on from each.
#![tactic(auto)]

mod function;
mod run;
mod way;

pub use function::{Function, Longest};
pub use run::Run;
pub use way::{Way, landing};
