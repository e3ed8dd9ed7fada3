// Request C-11 at its edges: both passes over a chunk, and its upvalues' names. The questions stand in the
// file stdin, a line each (crate vectors), and what is printed is held to the stored output.
#![tactic(auto)]

mod print;
mod questions;

use std::io::Stdout;
use vectors::part;

fn ask(out: Stdout, line: &[u8]) {
    let question: fn(Stdout, &[u8]) = match part(line, 0) {
        b"count" => questions::count,
        b"fill" => questions::fill,
        b"name" => questions::name,
        _ => {
            return;
        }
    };
    print::text(out, part(line, 1));
    question(out, line);
}

fn main(rt: HostRuntime) {
    let out = rt.stdout();
    vectors::inner::ask_each(rt.stdin(), |line| ask(out, line));
}
