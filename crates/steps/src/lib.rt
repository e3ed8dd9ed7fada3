// Layer 2, over fields and sweep: what one word is and where it goes on, for either version of Lua, and the
// pass that settles the steps of all words.
#![tactic(auto)]

mod alike;
pub mod inner;
pub mod lua53;
pub mod lua54;
