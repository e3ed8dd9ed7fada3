// For C: the four meters are lent to be updated.
#![tactic(auto)]

pub mod c;
