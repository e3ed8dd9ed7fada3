// Beneath what a word touches: places of three kinds, and the lists of an answer that name them. No word is
// known here.
#![tactic(auto)]

pub mod answer;
mod few;
mod insertion;
pub mod interval;
pub mod lists;
pub mod location;
