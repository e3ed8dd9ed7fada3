// For C: the three questions of `service`.
#![tactic(auto)]

pub mod c;
