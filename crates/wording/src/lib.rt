// Refusals and names in words.
#![tactic(auto)]

mod refusing;
mod showing;

pub use refusing::{Number, Reason, Refused, Why};
pub use showing::{Place, name_in, put_name};
