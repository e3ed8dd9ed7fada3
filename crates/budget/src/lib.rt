// Request C-20, four scripts on one controller: a meter for each, and one budget on the sum of their counts.
#![tactic(auto)]

pub mod c;
pub mod step;

pub use c::{
    lawendeb_begin_four as begin, lawendeb_feed_four as feed, lawendeb_reset_four as reset,
};
pub use step::{Meters, begin_four, feed_four, feed_own, reset_four, store};
