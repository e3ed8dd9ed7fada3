// For C: a meter is lent to be updated, by the forms of `meter` that document 01 names.
#![tactic(auto)]

pub mod c;
