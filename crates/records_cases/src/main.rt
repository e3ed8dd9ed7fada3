// The limits of what lifting takes, the records of words by their sums, and lists of records that
// are lent. The questions stand in the file stdin, a line each (crate vectors), and what is printed is
// held to the stored output.
#![tactic(auto)]

mod list;
mod questions;
mod sums;

use std::io::Stdout;
use vectors::part;

fn ask(out: Stdout, line: &[u8]) {
    match part(line, 0) {
        b"plan" => questions::plan(out, line),
        b"sums" => questions::sums(out, line),
        b"lift" => questions::lift(out, line),
        _ => {}
    }
}

fn main(rt: HostRuntime) {
    let out = rt.stdout();
    vectors::inner::ask_each(rt.stdin(), |line| ask(out, line));
}
