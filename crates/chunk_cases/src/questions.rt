// The questions. A line has what each is lent, in the order of its parameters.
use crate::print;
use chunk::{count_function, fill_function, lent_name, shown_name};
use std::io::Stdout;
use vectors::{list_of, number_of};

// Room for one function at each limit, and one past it.
const CHUNK: usize = 131124;

// bytes | k
pub fn count(out: Stdout, line: &[u8]) {
    let mut bytes = [0u8; CHUNK];
    let bytes = list_of(&mut bytes, line, 2);
    print::counts(out, count_function(bytes, number_of(line, 3) as usize));
}

// bytes | k | words | tags | payloads | names
pub fn fill(out: Stdout, line: &[u8]) {
    let mut bytes = [0u8; CHUNK];
    let mut words = [0u32; 16];
    let mut tags = [0u8; 8];
    let mut payloads = [0u64; 8];
    let mut names = [0u64; 4];
    let bytes = list_of(&mut bytes, line, 2);
    let k = number_of(line, 3) as usize;
    let words = list_of(&mut words, line, 4);
    let tags = list_of(&mut tags, line, 5);
    let payloads = list_of(&mut payloads, line, 6);
    let names = list_of(&mut names, line, 7);
    print::counts(out, fill_function(bytes, k, words, tags, payloads, names));
    print::slice(out, b"  words", words);
    print::slice(out, b"  tags", tags);
    print::slice(out, b"  payloads", payloads);
    print::slice(out, b"  names", names);
}

// bytes | names of the chunk | bytes of the list | names of the list | i
// Number, place, in the chunk (1) or the list (0), start, size; and the name.
pub fn name(out: Stdout, line: &[u8]) {
    let mut bytes = [0u8; 16];
    let mut own = [0u64; 256];
    let mut list = [0u8; 16];
    let mut other = [0u64; 256];
    let bytes = list_of(&mut bytes, line, 2);
    let own = list_of(&mut own, line, 3);
    let list = list_of(&mut list, line, 4);
    let other = list_of(&mut other, line, 5);
    let i = number_of(line, 6) as usize;
    let s = shown_name(bytes, own, list, other, i);
    print::numbers(out, &[s.number, s.place, s.in_chunk, s.start, s.size]);
    print::text(out, b" '");
    print::text(out, lent_name(bytes, own, list, other, i));
    print::text(out, b"'");
    print::end(out);
}
