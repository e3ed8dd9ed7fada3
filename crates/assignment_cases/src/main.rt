// Request C-15: registers set before use. The questions stand in the file stdin, a line each (crate vectors),
// and what is printed is held to the stored output.
#![tactic(auto)]

use assignment::definite_assignment;
use print_cases::{end, numbers, refused, text};
use std::io::Stdout;
use vectors::{ROOM, list_of, number_of, part};

// words | parameters | marks
fn ask(out: Stdout, line: &[u8]) {
    if part(line, 0) != b"assignment".as_slice() {
        return;
    }
    let mut words = [0u32; ROOM];
    let mut marks = [0u8; ROOM];
    let words = list_of(&mut words, line, 2);
    let parameters = (number_of(line, 3) % 256) as u8;
    let marks = list_of(&mut marks, line, 4);
    text(out, part(line, 1));
    match definite_assignment(words, parameters, marks) {
        Ok(()) => text(out, b" accepted"),
        Err(refusal) => refused(out, refusal.number() as u64, refusal.place() as u64),
    }
    text(out, b" marks");
    numbers(out, marks);
    end(out);
}

fn main(rt: HostRuntime) {
    let out = rt.stdout();
    vectors::inner::ask_each(rt.stdin(), |line| ask(out, line));
}
