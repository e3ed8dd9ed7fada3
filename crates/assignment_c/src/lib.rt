// For C: the question of `assignment`.
#![tactic(auto)]

pub mod c;
