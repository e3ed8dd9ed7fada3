// Over chunk: where each function of a chunk stands and which one it stands in; whether its bytes end early.
#![tactic(auto)]

mod early;
mod listing;

pub use early::ends_early;
pub use listing::{Listed, count_functions, list_functions};
