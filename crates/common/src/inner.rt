// What crates of this repository that write on a page call. It asks for room on the page, so that no entry of
// C or of a program is among it.
pub use crate::text::put_text;
