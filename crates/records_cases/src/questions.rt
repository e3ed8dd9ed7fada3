// The questions. A line has the words, tags, payloads, names and bytes that each is lent,
// then a number of its own.
use crate::{list, sums};
use common::c::FlatAnswer;
use print_cases::{end, numbers, text};
use records::lift::lift_word;
use std::io::Stdout;
use tables::refusals::check;
use values::model::Prototype;
use vectors::{ROOM, list_of, number_of, part};

// As many tags and payloads as are refused, and one more than pass.
const CONSTANTS: usize = 65537;

// How many records there is room for; the answer's number and place, and how many records are written.
pub fn plan(out: Stdout, line: &[u8]) {
    let mut words = [0u32; ROOM];
    let mut tags = [0u8; CONSTANTS];
    let mut payloads = [0u64; CONSTANTS];
    let mut names = [0u64; 256];
    let mut bytes = [0u8; 16];
    let proto = Prototype {
        words: list_of(&mut words, line, 2),
        tags: list_of(&mut tags, line, 3),
        payloads: list_of(&mut payloads, line, 4),
        names: list_of(&mut names, line, 5),
        bytes: list_of(&mut bytes, line, 6),
    };
    let answer = check(&proto, number_of(line, 7) as usize);
    let count = if answer.is_ok() { proto.words.len() } else { 0 };
    let answer = FlatAnswer::from(answer);
    text(out, part(line, 1));
    numbers(out, &[answer.number, answer.place, count as u64]);
    end(out);
}

// How many words have one sum. Where a group of words ends its sum is printed, and the next begins with 0.
pub fn sums(out: Stdout, line: &[u8]) {
    let mut words = [0u32; 1024];
    let mut tags = [0u8; 8];
    let mut payloads = [0u64; 8];
    let mut names = [0u64; 8];
    let mut bytes = [0u8; 16];
    let proto = Prototype {
        words: list_of(&mut words, line, 2),
        tags: list_of(&mut tags, line, 3),
        payloads: list_of(&mut payloads, line, 4),
        names: list_of(&mut names, line, 5),
        bytes: list_of(&mut bytes, line, 6),
    };
    let group = number_of(line, 7) as usize;
    let mut sum: u64 = 0;
    for i in 0..proto.words.len() {
        if let Ok(Some(record)) = lift_word(&proto, i) {
            sum = sums::record(sum, record);
        }
        if group != 0 && i % group == group - 1 {
            text(out, part(line, 1));
            numbers(out, &[(i / group) as u64, sum]);
            end(out);
            sum = 0;
        }
    }
}

// Into a list of eight records.
pub fn lift(out: Stdout, line: &[u8]) {
    let mut words = [0u32; 16];
    let mut tags = [0u8; 8];
    let mut payloads = [0u64; 8];
    let mut names = [0u64; 8];
    let mut bytes = [0u8; 16];
    let proto = Prototype {
        words: list_of(&mut words, line, 2),
        tags: list_of(&mut tags, line, 3),
        payloads: list_of(&mut payloads, line, 4),
        names: list_of(&mut names, line, 5),
        bytes: list_of(&mut bytes, line, 6),
    };
    list::show(out, part(line, 1), &proto);
}
