// Over runs: the longest run by two tables, low and high (request C-18).
#![tactic(auto)]

pub mod c;
pub mod range;

pub use c::{FlatRange, lawendeb_longest_runs};
pub use range::{LongestRange, longest_runs};
