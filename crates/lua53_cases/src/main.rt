// Scripts of Lua 5.3 (request C-24), by the functions that C calls. The questions stand in the file stdin,
// a line each (crate vectors), and what is printed is held to the stored output.
#![tactic(auto)]

mod feeds;
mod print;
mod questions;

use std::io::Stdout;
use vectors::part;

fn ask(out: Stdout, line: &[u8]) {
    let question: fn(Stdout, &[u8]) = match part(line, 0) {
        b"title" => questions::title,
        b"decode" => questions::decode,
        b"step" => questions::step,
        b"run" => questions::run,
        b"distance" => questions::distance,
        b"crossings" => questions::crossings,
        b"within" => questions::within,
        b"feed" => feeds::feed,
        b"begin" => feeds::begin,
        b"reset" => feeds::reset,
        _ => {
            return;
        }
    };
    print::text(out, part(line, 1));
    question(out, line);
    if !vectors::is_open(line) {
        print::end(out);
    }
}

fn main(rt: HostRuntime) {
    let out = rt.stdout();
    vectors::inner::ask_each(rt.stdin(), |line| ask(out, line));
}
