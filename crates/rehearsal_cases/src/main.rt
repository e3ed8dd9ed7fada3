// Request C-21: turns, waits, choices, the three ends, and what is turned away. The questions stand in the
// file stdin, a line each (crate vectors), and what is printed is held to the stored output.
#![tactic(auto)]

use common::Refusal;
use print_cases::{end, numbers, refusal, text};
use rehearsal::{Waits, rehearse};
use std::io::Stdout;
use vectors::{list_of, number_of, part};

// The longest wait of each of four, or the refusal's number and place.
fn answer(out: Stdout, r: Result<Waits, Refusal>) {
    text(out, b":");
    match r {
        Ok(waits) => {
            text(out, b" waits");
            numbers(out, &waits);
        }
        Err(e) => refusal(out, e),
    }
}

fn small_of(line: &[u8], k: usize) -> u32 {
    (number_of(line, k) % 4294967296) as u32
}

// four lists of words | count | quantum | choices | limit | marks | lengths
fn ask(out: Stdout, line: &[u8]) {
    if part(line, 0) != b"rehearse".as_slice() {
        return;
    }
    let mut w0 = [0u32; 8];
    let mut w1 = [0u32; 8];
    let mut w2 = [0u32; 8];
    let mut w3 = [0u32; 8];
    let mut choices = [0u8; 8];
    let mut marks = [0u8; 8];
    let mut lengths = [0u32; 8];
    let w0 = list_of(&mut w0, line, 2);
    let w1 = list_of(&mut w1, line, 3);
    let w2 = list_of(&mut w2, line, 4);
    let w3 = list_of(&mut w3, line, 5);
    let count = number_of(line, 6) as usize;
    let quantum = small_of(line, 7);
    let choices = list_of(&mut choices, line, 8);
    let limit = small_of(line, 9);
    let marks = list_of(&mut marks, line, 10);
    let lengths = list_of(&mut lengths, line, 11);
    text(out, part(line, 1));
    answer(
        out,
        rehearse(
            w0, w1, w2, w3, count, quantum, choices, limit, marks, lengths,
        ),
    );
    // Both slices: what no run touches is to stay as it was.
    text(out, b" marks");
    numbers(out, marks);
    text(out, b" lengths");
    numbers(out, lengths);
    end(out);
}

fn main(rt: HostRuntime) {
    let out = rt.stdout();
    vectors::inner::ask_each(rt.stdin(), |line| ask(out, line));
}
