// The questions. A line has what each is lent, in the order of its parameters.
use crate::print;
use fields::version::Version;
use ranges::longest_runs;
use runs::longest_run;
use std::io::Stdout;
use steps::lua54::successors::successors;
use sweep::edges;
use vectors::{ROOM, list_of, number_of};

// words | p
pub fn step(out: Stdout, line: &[u8]) {
    let mut words = [0u32; 8];
    let words = list_of(&mut words, line, 2);
    print::steps(out, successors(words, number_of(line, 3) as usize));
}

// p | q
pub fn serves(out: Stdout, line: &[u8]) {
    if edges::serves(number_of(line, 2) as usize, number_of(line, 3) as usize) {
        print::text(out, b" serves");
    }
}

// words | weights | marks | lengths
pub fn run(out: Stdout, line: &[u8]) {
    let mut words = [0u32; ROOM];
    let mut weights = [0u8; 256];
    let mut marks = [0u8; ROOM];
    let mut lengths = [0u32; ROOM];
    let words = list_of(&mut words, line, 2);
    let weights = list_of(&mut weights, line, 3);
    let marks = list_of(&mut marks, line, 4);
    let lengths = list_of(&mut lengths, line, 5);
    print::answer(
        out,
        longest_run(Version::Lua54, words, weights, marks, lengths),
    );
    print::slices(out, marks, lengths);
}

// words | low weights | high weights | marks | lengths
pub fn runs(out: Stdout, line: &[u8]) {
    let mut words = [0u32; ROOM];
    let mut low = [0u8; 256];
    let mut high = [0u8; 256];
    let mut marks = [0u8; ROOM];
    let mut lengths = [0u32; ROOM];
    let words = list_of(&mut words, line, 2);
    let low = list_of(&mut low, line, 3);
    let high = list_of(&mut high, line, 4);
    let marks = list_of(&mut marks, line, 5);
    let lengths = list_of(&mut lengths, line, 6);
    print::range(
        out,
        longest_runs(Version::Lua54, words, low, high, marks, lengths),
    );
    print::slices(out, marks, lengths);
}
