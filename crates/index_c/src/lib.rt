// For C: the functions of a chunk, by `index` and `lines`.
#![tactic(auto)]

pub mod c;
