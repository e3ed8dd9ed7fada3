// What is told of a compiled script as objects of JSON, one a line.
#![tactic(auto)]

mod objects;

pub use objects::{put_function, put_head, put_refused_file, put_sum, put_too_long};
