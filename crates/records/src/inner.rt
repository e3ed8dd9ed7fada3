// What crate `lifted` calls, which has checked the tables: it asks for a word, of few enough words, so that
// no entry of C or of a program is among it.
pub use crate::word::lift_at;
