// For C: what a word of Lua 5.4 touches.
#![tactic(auto)]

pub mod c;
