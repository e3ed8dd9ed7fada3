// For C: the feed of a script of Lua 5.3, the archive of `meter53`.
#![tactic(auto)]

pub mod c;
