// What the owner's command is given: its arguments, its files to their end, and the memory for them.
#![tactic(auto)]

pub mod asking;
pub mod failing;
pub mod loading;
pub mod reading;
pub mod rooms;
