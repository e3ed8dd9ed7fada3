// What other crates of this repository that go by settled entries call, beside those of `sweep`. These
// functions ask for what a check of the sizes or the search leaves, so that no entry of C or of a program is
// among them. `slot_mask` asks for nothing: it is for the loops of `ranges`.
pub use crate::longest::{measure_run, search_words};
pub use crate::script::slot_mask;
