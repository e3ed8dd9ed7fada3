// What crate `records` calls: it asks for a pc below the most words, so that no entry of C or of a program is
// among it.
pub use crate::dispatch::lift_body;
