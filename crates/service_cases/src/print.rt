// What the cases print.
use common::Refusal;
pub use print_cases::{end, numbers, text};
use print_cases::{number, refusal};
use std::io::Stdout;

pub fn nearest(out: Stdout, answer: Result<Option<u32>, Refusal>) {
    match answer {
        Ok(Some(words)) => number(out, words),
        Ok(None) => text(out, b" -"),
        Err(e) => refusal(out, e),
    }
}

pub fn crossed(out: Stdout, answer: Result<usize, Refusal>) {
    match answer {
        Ok(count) => number(out, count as u64),
        Err(e) => refusal(out, e),
    }
}

pub fn listed(out: Stdout, answer: Result<(), Refusal>) {
    match answer {
        Ok(()) => text(out, b" listed"),
        Err(e) => refusal(out, e),
    }
}

// The run's two slices.
pub fn slices(out: Stdout, marks: &[u8], lengths: &[u32]) {
    text(out, b" marks");
    numbers(out, marks);
    text(out, b" lengths");
    numbers(out, lengths);
}
