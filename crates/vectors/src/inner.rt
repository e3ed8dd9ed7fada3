// What the test programs call. It asks for a closure that may be called.
pub use crate::asking::ask_each;
