// Beneath the layers, over nothing: what they share. Limits, refusals, what refuses words by sizes alone, the
// answer of number and place for C.
#![tactic(auto)]

pub mod c;
pub mod inner;
pub mod limits;
pub mod numbers;
pub mod refusal;
pub mod sizes;
mod text;

pub use refusal::Refusal;
