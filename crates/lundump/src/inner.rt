// What other crates of this repository that read a chunk or parts of one call: a function's parts, and the
// walk over functions. No entry of C or of a program is among them.
pub use crate::functions::function;
pub use crate::locating::{header, locate, located};
pub use crate::parts::{code, constants, head, lines, names, upvalues};
