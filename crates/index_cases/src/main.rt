// All functions of a chunk, a function's words, lines and head by number and by place, and why a chunk
// is refused. The questions stand in the file stdin, a line each (crate vectors), and what is printed is
// held to the stored output.
#![tactic(auto)]

mod print;
mod questions;

use std::io::Stdout;
use vectors::part;

fn ask(out: Stdout, line: &[u8]) {
    let question: fn(Stdout, &[u8]) = match part(line, 0) {
        b"list" => questions::list,
        b"number" => questions::by_number,
        b"place" => questions::by_place,
        b"why" => questions::why,
        _ => {
            return;
        }
    };
    print::text(out, part(line, 1));
    question(out, line);
    print::end(out);
}

fn main(rt: HostRuntime) {
    let out = rt.stdout();
    vectors::inner::ask_each(rt.stdin(), |line| ask(out, line));
}
