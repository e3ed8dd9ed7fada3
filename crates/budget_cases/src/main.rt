// Calls on four meters, and what each answers and leaves: the number, a place if there is one;
// then of the axis, the focuser, the dome and the guider each begun, last, count, services, highest.
// The calls stand in the file stdin, a line each with the meters that are lent (crate vectors), and what is
// printed is held to the stored output.
#![tactic(auto)]

mod calls;

use print_cases::{end, text};
use std::io::Stdout;
use vectors::part;

fn ask(out: Stdout, line: &[u8]) {
    let call: fn(Stdout, &[u8]) = match part(line, 0) {
        b"title" => calls::title,
        b"feed" => calls::feed,
        b"begin" => calls::begin,
        b"reset" => calls::reset,
        _ => {
            return;
        }
    };
    text(out, part(line, 1));
    call(out, line);
    end(out);
}

fn main(rt: HostRuntime) {
    let out = rt.stdout();
    vectors::inner::ask_each(rt.stdin(), |line| ask(out, line));
}
