// The 53 numbers of each record, as include/RECORD.md has them, put into the caller's slice.
#![tactic(auto)]

pub mod inner;
mod lifted;

pub use lifted::numbers_of;
