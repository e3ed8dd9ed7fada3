// For C: the question of `rehearsal`.
#![tactic(auto)]

pub mod c;
