// Request C-22: the distance to service, the list within d words, and crossing edges. The questions stand in
// the file stdin, a line each (crate vectors), and what is printed is held to the stored output.
#![tactic(auto)]

mod print;
mod questions;

use std::io::Stdout;
use vectors::part;

fn ask(out: Stdout, line: &[u8]) {
    let question: fn(Stdout, &[u8]) = match part(line, 0) {
        b"title" => questions::title,
        b"distances" => questions::distances,
        b"crossings" => questions::crossings,
        b"within" => questions::within,
        b"all" => questions::all,
        _ => {
            return;
        }
    };
    print::text(out, part(line, 1));
    question(out, line);
    print::end(out);
}

fn main(rt: HostRuntime) {
    let out = rt.stdout();
    vectors::inner::ask_each(rt.stdin(), |line| ask(out, line));
}
