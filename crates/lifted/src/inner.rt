// What crate `exports`, which checks the tables, calls: it asks for room and for few enough words, as the
// check leaves them, so that no entry of C or of a program is among it.
pub use crate::lifted::{RECORD_LENGTH, put_records};
