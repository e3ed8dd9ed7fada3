// Over runs, by entries that `runs::inner` settles: how far each word is from a service, and how many edges
// pass over a word (request C-22).
#![tactic(auto)]

pub mod c;
pub mod crossing;
pub mod distance;
mod pairs;
mod pass;
mod unit;
pub mod within;

pub use crossing::crossing_edges;
pub use distance::distance_to_service;
pub use within::list_within;
