// For C: the feed of one of four scripts where that is of Lua 5.3, the archive of `budget53`.
#![tactic(auto)]

pub mod c;
