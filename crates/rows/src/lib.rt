// The rows of a run: on which lines how many words pass, and where it goes on.
#![tactic(auto)]

mod parts;

pub use parts::put_rows;
