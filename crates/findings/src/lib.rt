// What there is to tell of a compiled script, without a word of text: of each function its longest run, and
// which functions come first.
#![tactic(auto)]

mod key;
mod rooms;
mod script;

pub use key::Key;
pub use rooms::Rooms;
pub use script::Script;
