// The C interface beside the meter's: answers as structs of numbers, since an exported
// function may give no enum.
#![tactic(auto)]

pub mod c;

pub use c::{lawendeb_longest_run_3, lawendeb_successors};
