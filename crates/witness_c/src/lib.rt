// For C: the question of `witness`.
#![tactic(auto)]

pub mod c;
