// What the cases print.
use print_cases::refused;
pub use print_cases::{end, number, numbers, text};
use runs::c::{FlatRun, FlatSuccessors};
use service::c::{FlatCrossed, FlatNearest};
use std::io::Stdout;

pub fn steps(out: Stdout, s: FlatSuccessors) {
    match s.kind {
        0 => text(out, b" bad"),
        1 => text(out, b" none"),
        2 => number(out, s.first),
        _ => numbers(out, &[s.first, s.second]),
    }
}

// The number, then L and first, or the place.
pub fn answer(out: Stdout, run: FlatRun) {
    if run.number == 0 {
        text(out, b" accepted");
        numbers(out, &[run.longest, run.first]);
    } else {
        refused(out, run.number, run.place);
    }
}

pub fn slices(out: Stdout, marks: &[u8], lengths: &[u32]) {
    text(out, b" marks");
    numbers(out, marks);
    text(out, b" lengths");
    numbers(out, lengths);
}

pub fn nearest(out: Stdout, a: FlatNearest) {
    if a.number != 0 {
        text(out, b" refused");
    } else if a.found == 1 {
        number(out, a.fewest);
    } else {
        text(out, b" -");
    }
}

pub fn crossed(out: Stdout, a: FlatCrossed) {
    if a.number != 0 {
        text(out, b" refused");
    } else {
        number(out, a.count);
    }
}
