// What the test programs print with, on standard output. No contract can say what is written,
// so none promises anything.
#![tactic(auto)]

use common::Refusal;
use std::io::Stdout;

// Where a write fails the line is lost, and the program goes on.
pub fn text(out: Stdout, bytes: &[u8]) {
    let _ = out.write_all(bytes);
}

pub fn decimal<T: Into<u64>>(out: Stdout, n: T) {
    let _ = print!(out; "{}", n.into());
}

// A number after a blank.
pub fn number<T: Into<u64>>(out: Stdout, n: T) {
    let _ = print!(out; " {}", n.into());
}

pub fn end(out: Stdout) {
    text(out, b"\n");
}

// A number and a place of a refusal.
pub fn refused(out: Stdout, number: u64, place: u64) {
    let _ = print!(out; " refused {number} {place}");
}

pub fn refusal(out: Stdout, e: Refusal) {
    refused(out, u64::from(e.number()), e.place() as u64);
}

// Of more than 128 elements only the first and the last five are printed.
fn is_shown(i: usize, len: usize) -> bool {
    len <= 128 || i == 0 || i <= len && len - i <= 5
}

pub fn numbers<T: Copy + Into<u64>>(out: Stdout, s: &[T]) {
    for (i, &x) in s.iter().enumerate() {
        if is_shown(i, s.len()) {
            number(out, x);
        }
    }
}
