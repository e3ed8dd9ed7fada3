// For C: runs by two tables of weights, by `ranges`. It is an archive of its own: beside a second caller
// of the settling pass the compiler would not put that pass into `lawendeb_longest_run` any more, which then
// takes about a fifth more time.
#![tactic(auto)]

pub mod c;
