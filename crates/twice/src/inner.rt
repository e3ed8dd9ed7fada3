// What measures by two tables calls. It asks for what a check of the sizes, the pass that settles and the
// search leave, so that no entry of C or of a program is among it.
pub use crate::passes::{Lows, fill_twice};
