// The questions. A line has what each is lent, in the order of its parameters.
use crate::print;
use fields::version::Version;
use service::{crossing_edges, distance_to_service, list_within};
use std::io::Stdout;
use vectors::{ROOM, list_of, number_of};

// Only its label is printed.
pub fn title(_: Stdout, _: &[u8]) {}

// words | several w, one after another in the same slices | marks | lengths
pub fn distances(out: Stdout, line: &[u8]) {
    let mut words = [0u32; ROOM];
    let mut ws = [0u64; 8];
    let mut marks = [0u8; ROOM];
    let mut lengths = [0u32; ROOM];
    let words = list_of(&mut words, line, 2);
    let ws = list_of(&mut ws, line, 3);
    let marks = list_of(&mut marks, line, 4);
    let lengths = list_of(&mut lengths, line, 5);
    for &w in &*ws {
        print::nearest(
            out,
            distance_to_service(Version::Lua54, words, w as usize, marks, lengths),
        );
    }
    print::slices(out, marks, lengths);
}

// words | several w, one after another in the same slices | marks | lengths
pub fn crossings(out: Stdout, line: &[u8]) {
    let mut words = [0u32; ROOM];
    let mut ws = [0u64; 8];
    let mut marks = [0u8; ROOM];
    let mut lengths = [0u32; ROOM];
    let words = list_of(&mut words, line, 2);
    let ws = list_of(&mut ws, line, 3);
    let marks = list_of(&mut marks, line, 4);
    let lengths = list_of(&mut lengths, line, 5);
    for &w in &*ws {
        print::crossed(
            out,
            crossing_edges(Version::Lua54, words, w as usize, marks, lengths),
        );
    }
    print::slices(out, marks, lengths);
}

// The words within d of a service, in a list of their own, and what the run leaves.
fn listed(
    out: Stdout,
    words: &[u32],
    d: usize,
    marks: &mut [u8],
    lengths: &mut [u32],
    list: &mut [u8],
) {
    print::listed(
        out,
        list_within(Version::Lua54, words, d, marks, lengths, list),
    );
    print::numbers(out, list);
    print::slices(out, marks, lengths);
}

// words | d | marks | lengths | list
pub fn within(out: Stdout, line: &[u8]) {
    let mut words = [0u32; ROOM];
    let mut marks = [0u8; ROOM];
    let mut lengths = [0u32; ROOM];
    let mut list = [0u8; ROOM];
    let words = list_of(&mut words, line, 2);
    let d = number_of(line, 3) as usize;
    let marks = list_of(&mut marks, line, 4);
    let lengths = list_of(&mut lengths, line, 5);
    let list = list_of(&mut list, line, 6);
    listed(out, words, d, marks, lengths, list);
}

// words | w of the distance | w of the edges | d | marks | lengths | list
pub fn all(out: Stdout, line: &[u8]) {
    let mut words = [0u32; ROOM];
    let mut marks = [0u8; ROOM];
    let mut lengths = [0u32; ROOM];
    let mut list = [0u8; ROOM];
    let words = list_of(&mut words, line, 2);
    let w = number_of(line, 3) as usize;
    let edges_of = number_of(line, 4) as usize;
    let d = number_of(line, 5) as usize;
    let marks = list_of(&mut marks, line, 6);
    let lengths = list_of(&mut lengths, line, 7);
    let list = list_of(&mut list, line, 8);
    print::nearest(
        out,
        distance_to_service(Version::Lua54, words, w, marks, lengths),
    );
    print::crossed(
        out,
        crossing_edges(Version::Lua54, words, edges_of, marks, lengths),
    );
    listed(out, words, d, marks, lengths, list);
}
