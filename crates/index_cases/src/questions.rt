// The questions. A line has what each is lent, in the order of its parameters.
use crate::print;
use headers::why_refused;
use index::list_functions;
use lines::{Choice, head_by, lines_by, words_by};
use std::io::Stdout;
use vectors::{list_of, number_of};

// bytes | places | parents
pub fn list(out: Stdout, line: &[u8]) {
    let mut bytes = [0u8; 256];
    let mut places = [0u64; 4];
    let mut parents = [0u64; 4];
    let bytes = list_of(&mut bytes, line, 2);
    let places = list_of(&mut places, line, 3);
    let parents = list_of(&mut parents, line, 4);
    print::answer(out, list_functions(bytes, places, parents));
    print::text(out, b" places");
    print::numbers(out, places);
    print::text(out, b" parents");
    print::numbers(out, parents);
}

fn show(out: Stdout, line: &[u8], choice: Choice) {
    let mut bytes = [0u8; 256];
    let mut words = [0u32; 10];
    let mut lines = [0u32; 10];
    let bytes = list_of(&mut bytes, line, 2);
    let words = list_of(&mut words, line, 4);
    let lines = list_of(&mut lines, line, 5);
    print::counts(out, words_by(bytes, choice, words));
    print::text(out, b" words");
    print::numbers(out, words);
    print::counts(out, lines_by(bytes, choice, lines));
    print::text(out, b" lines");
    print::numbers(out, lines);
    print::head(out, head_by(bytes, choice));
}

// bytes | k | words | lines
pub fn by_number(out: Stdout, line: &[u8]) {
    show(out, line, Choice::Number(number_of(line, 3) as usize));
}

// bytes | place | words | lines
pub fn by_place(out: Stdout, line: &[u8]) {
    show(out, line, Choice::Place(number_of(line, 3) as usize));
}

// bytes
pub fn why(out: Stdout, line: &[u8]) {
    let mut bytes = [0u8; 256];
    print::why(out, why_refused(list_of(&mut bytes, line, 2)));
}
