// For C: words, runs and the lift, the archive of `exports`.
#![tactic(auto)]

pub mod c;
