// Beneath layer 2, over steps alone: a word's steps as its entry, the search over entries, and the pass over
// the lengths. What reads words settles the entries (crate `steps`); nothing here knows what a word is, and
// nothing of crate `fields` is named.
#![tactic(auto)]

pub mod edges;
pub mod inner;
mod lengths;
mod packing;
mod search;
