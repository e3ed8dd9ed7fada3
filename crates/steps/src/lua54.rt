// Lua 5.4.8.
pub(crate) mod settling;
pub mod successors;
