// Scripts of Lua 5.3 as C gets them (request C-24); lua53_c is the archive. Each symbol is one of 5.4's with
// `_53` behind it, so that no number names a version and none could be wrong. Beside a second caller of the
// passes the compiler would not put them into 5.4's exports any more. The feeds are in `meter53` and
// `budget53`, as 5.4's are in `meter` and `budget`.
#![tactic(auto)]

pub mod c;
