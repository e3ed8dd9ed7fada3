// The table of steps and the longest run: the questions stand in the file stdin, a line each (crate vectors),
// and what is printed is held to the stored output.
#![tactic(auto)]

mod print;
mod questions;

use std::io::Stdout;
use vectors::part;

fn ask(out: Stdout, line: &[u8]) {
    let question: fn(Stdout, &[u8]) = match part(line, 0) {
        b"step" => questions::step,
        b"serves" => questions::serves,
        b"run" => questions::run,
        b"runs" => questions::runs,
        _ => {
            return;
        }
    };
    print::text(out, part(line, 1));
    question(out, line);
    print::end(out);
}

fn main(rt: HostRuntime) {
    let out = rt.stdout();
    vectors::inner::ask_each(rt.stdin(), |line| ask(out, line));
}
