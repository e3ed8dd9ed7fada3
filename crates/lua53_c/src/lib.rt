// For C: scripts of Lua 5.3, the archive of `lua53`.
#![tactic(auto)]

pub mod c;
