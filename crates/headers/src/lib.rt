// Over lundump: why a file is refused, by its header.
#![tactic(auto)]

mod refusing;

pub use refusing::{Why, why_refused};
