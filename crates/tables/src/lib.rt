// Layer 4, beneath the lifter: the tables lent to it, and what lifting refuses, 1 to 6.
#![tactic(auto)]

pub mod refusals;
