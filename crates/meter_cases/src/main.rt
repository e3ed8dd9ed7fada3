// Calls on a meter, and what each answers and leaves: feed, number; begun, last, count, services, highest.
// The calls stand in the file stdin, a line each with the meter that is lent (crate vectors), and what is
// printed is held to the stored output.
#![tactic(auto)]

mod calls;

use print_cases::{end, text};
use std::io::Stdout;
use vectors::part;

fn ask(out: Stdout, line: &[u8]) {
    let call: fn(Stdout, &[u8]) = match part(line, 0) {
        b"title" => calls::title,
        b"feed" => calls::feed,
        b"begin" => calls::begin,
        b"reset" => calls::reset,
        b"straight" => calls::straight,
        _ => {
            return;
        }
    };
    text(out, part(line, 1));
    call(out, line);
    end(out);
}

fn main(rt: HostRuntime) {
    let out = rt.stdout();
    vectors::inner::ask_each(rt.stdin(), |line| ask(out, line));
}
