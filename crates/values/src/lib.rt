// Layer 4, its ground: the value types of the records, and what the lent tables of constants and names say.
#![tactic(auto)]

pub mod few;
pub mod ir;
pub mod lookup;
pub mod model;
pub mod spans;
