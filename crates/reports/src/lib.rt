// What is told of a function and of a script in lines of text: titles, sums and refusals.
#![tactic(auto)]

mod refusing;
mod sums;
mod titles;

pub use refusing::{put_refused, put_too_long};
pub use sums::put_sum;
pub use titles::put_title;
