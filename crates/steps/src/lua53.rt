// Lua 5.3.6.
pub(crate) mod settling;
pub mod successors;
