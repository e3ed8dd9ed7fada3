// Over fields and runs: what each word really touches, as lvm.c has it, for Lua 5.4 and 5.3
// (document 02, C-14 and C-24).
#![tactic(auto)]

pub mod arguments;
mod dialect;
pub mod locating;
mod lua53;
mod lua54;
pub mod operands;
pub mod word;

pub use locations::answer::Touches;
pub use word::{touches, touches_53};
