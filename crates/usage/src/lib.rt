// How the owner's command is used, in words, and what it can't take.
#![tactic(auto)]

mod text;

pub use text::{put_bad_line, put_long_weights, put_unclear, put_usage, put_version};
