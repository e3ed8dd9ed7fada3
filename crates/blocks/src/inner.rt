// What `assignment` calls. It asks for some words, not too many, and tables that are long enough, so that no
// entry of C or of a program is among it.
pub use crate::search::{Seen, Tables, search};
pub use crate::waiting::{PAGES, Waiting};
