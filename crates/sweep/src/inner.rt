// What crates of this repository that settle entries, or go by settled ones, call. These functions ask for
// what a check of the sizes, the pass that settles or the search leaves, so that no entry of C or of a
// program is among them.
pub use crate::edges::{both_of, has_successor, one_of, two_of};
pub use crate::lengths::{
    Measured, beyond, clear_lengths, fill_lengths, find_first, find_longest, weigh,
};
pub use crate::packing::{
    ENTRIES, KIND_BOTH, KIND_NEXT, KIND_NONE, KIND_TARGET, RETURNS, TARGETS, entry_of,
};
pub use crate::search::mark_reachable;
