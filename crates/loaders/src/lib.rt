// The loaders that lundump.c of Lua 5.4.8 is made of: bytes, numbers, strings and constants.
#![tactic(auto)]

mod bytes;
mod constants;
pub mod inner;
mod reading;
mod strings;

pub use constants::{Constant, Packed};
pub use reading::Read;
pub use strings::Bytes;
