// What an owner is told of a compiled script: of each function the most that can pass without a service, and
// the lines on which it passes.
#![tactic(auto)]

mod telling;

pub use telling::tell;
