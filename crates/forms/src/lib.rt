// What is told, in the form that is asked for: text or JSON.
#![tactic(auto)]

mod parts;

pub use parts::Form;
