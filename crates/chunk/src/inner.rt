// What other crates of this repository that fill a function's words call. No entry of C or of a program is
// among them.
pub use crate::filling::{fill_code, with_room};
