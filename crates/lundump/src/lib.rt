// Compiled files: a Lua 5.4 binary chunk, read as lundump.c of 5.4.8 does, and where the parts of any chosen
// function stand.
#![tactic(auto)]

mod counts;
mod functions;
pub mod inner;
mod items;
mod locating;
mod parts;

pub use counts::Counts;
pub use functions::{Layout, Rooms, Search};
