// The feed of one of four scripts (request C-20) where that is of Lua 5.3 (request C-24):
// the controller lends its four meters to be updated. Begin and reset of the four are those of 5.4, since
// they look at no word; so may a script of 5.4 be fed beside one of 5.3, each by its own feed.
#![tactic(auto)]

pub mod c;

pub use c::lawendeb_feed_four_53;
