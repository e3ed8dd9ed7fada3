// What the cases print.
use common::Refusal;
pub use print_cases::{end, text};
use print_cases::{number, numbers, refusal};
use ranges::LongestRange;
use runs::Longest;
use std::io::Stdout;
use sweep::edges::Successors;

fn longest(out: Stdout, l: Longest) {
    number(out, l.longest);
    number(out, l.first as u64);
}

// The number, then L and first, or the place.
pub fn answer(out: Stdout, run: Result<Longest, Refusal>) {
    match run {
        Ok(l) => {
            text(out, b" accepted");
            longest(out, l);
        }
        Err(e) => refusal(out, e),
    }
}

// The number, then L and first of both tables, or the place.
pub fn range(out: Stdout, runs: Result<LongestRange, Refusal>) {
    match runs {
        Ok(both) => {
            text(out, b" accepted");
            longest(out, both.low);
            longest(out, both.high);
        }
        Err(e) => refusal(out, e),
    }
}

pub fn steps(out: Stdout, s: Successors) {
    match s {
        Successors::Invalid => text(out, b" bad"),
        Successors::Stop => text(out, b" none"),
        Successors::One(a) => number(out, a as u64),
        Successors::Two(a, b) => {
            number(out, a as u64);
            number(out, b as u64);
        }
    }
}

pub fn slices(out: Stdout, marks: &[u8], lengths: &[u32]) {
    text(out, b" marks");
    numbers(out, marks);
    text(out, b" lengths");
    numbers(out, lengths);
}
