// The bench program without its input and output: from a sheet's bytes to the bytes that it writes.
#![tactic(auto)]

mod paper;
mod rows;
mod tables;

pub use paper::page;
pub use tables::answer;
