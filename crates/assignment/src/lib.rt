// Over runs and touches: registers set before use (request C-15). In the field's terms: definite assignment.
#![tactic(auto)]

pub mod definite;

pub use definite::definite_assignment;
