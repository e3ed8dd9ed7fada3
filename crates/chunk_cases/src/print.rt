// What the cases print.
use lundump::Counts;
pub use print_cases::{end, numbers, text};
use std::io::Stdout;

// Number, place, words, constants, names.
pub fn counts(out: Stdout, c: Counts) {
    numbers(out, &[c.number, c.place, c.words, c.constants, c.names]);
    end(out);
}

// A line for a slice.
pub fn slice<T: Copy + Into<u64>>(out: Stdout, label: &[u8], s: &[T]) {
    text(out, label);
    numbers(out, s);
    end(out);
}
