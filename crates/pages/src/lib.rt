// Text for standard output: a page that is written out when it is full, so that a line costs no call of its
// own.
#![tactic(auto)]

mod page;
mod text;

pub use page::Page;
