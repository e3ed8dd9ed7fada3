// What other crates of this repository that read a chunk or parts of one call. No entry of C or of a program
// is among them.
pub use crate::bytes::word_of_bytes;
pub use crate::constants::{constant_at, packed_at};
pub use crate::reading::{block, byte, int};
pub use crate::strings::{name_at, string};
