// For C: a function's words, tags, payloads and names, and the names shown, by `chunk`.
#![tactic(auto)]

pub mod c;
