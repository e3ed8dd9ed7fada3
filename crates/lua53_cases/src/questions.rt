// The questions about words. A line has what each is lent, in the order of its parameters.
use crate::print::*;
use lua53::c::{
    lawendeb_crossing_edges_53, lawendeb_decode_53, lawendeb_distance_to_service_53,
    lawendeb_list_within_53, lawendeb_longest_run_53, lawendeb_successors_53,
};
use std::io::Stdout;
use vectors::{ROOM, list_of, number_of};

// Only its label is printed.
pub fn title(_: Stdout, _: &[u8]) {}

fn signed(out: Stdout, sbx: i32) {
    match sbx {
        0 => text(out, b" 0"),
        131072 => text(out, b" 131072"),
        _ => {
            if sbx < 0 {
                text(out, b" below 0");
            }
        }
    }
}

// A word: its opcode, mode, A, B, C, Bx, Ax, and whether sBx is below 0, 0 or 131,072.
pub fn decode(out: Stdout, line: &[u8]) {
    let f = lawendeb_decode_53((number_of(line, 2) % 4294967296) as u32);
    numbers(out, &[f.opcode, f.mode, f.a, f.b, f.c, f.bx, f.ax]);
    signed(out, f.sbx);
}

// words | p
pub fn step(out: Stdout, line: &[u8]) {
    let mut words = [0u32; 8];
    let words = list_of(&mut words, line, 2);
    steps(
        out,
        lawendeb_successors_53(words, number_of(line, 3) as usize),
    );
}

// words | weights | marks | lengths
pub fn run(out: Stdout, line: &[u8]) {
    let mut words = [0u32; ROOM];
    let mut weights = [0u8; 256];
    let mut marks = [0u8; 8];
    let mut lengths = [0u32; 8];
    let words = list_of(&mut words, line, 2);
    let weights = list_of(&mut weights, line, 3);
    let marks = list_of(&mut marks, line, 4);
    let lengths = list_of(&mut lengths, line, 5);
    answer(out, lawendeb_longest_run_53(words, weights, marks, lengths));
    slices(out, marks, lengths);
}

// words | w | marks | lengths
pub fn distance(out: Stdout, line: &[u8]) {
    let mut words = [0u32; 8];
    let mut marks = [0u8; 8];
    let mut lengths = [0u32; 8];
    let words = list_of(&mut words, line, 2);
    let w = number_of(line, 3) as usize;
    let marks = list_of(&mut marks, line, 4);
    let lengths = list_of(&mut lengths, line, 5);
    nearest(
        out,
        lawendeb_distance_to_service_53(words, w, marks, lengths),
    );
}

// words | w | marks | lengths
pub fn crossings(out: Stdout, line: &[u8]) {
    let mut words = [0u32; 8];
    let mut marks = [0u8; 8];
    let mut lengths = [0u32; 8];
    let words = list_of(&mut words, line, 2);
    let w = number_of(line, 3) as usize;
    let marks = list_of(&mut marks, line, 4);
    let lengths = list_of(&mut lengths, line, 5);
    crossed(out, lawendeb_crossing_edges_53(words, w, marks, lengths));
}

// words | d | marks | lengths | list
pub fn within(out: Stdout, line: &[u8]) {
    let mut words = [0u32; 8];
    let mut marks = [0u8; 8];
    let mut lengths = [0u32; 8];
    let mut list = [0u8; 8];
    let words = list_of(&mut words, line, 2);
    let d = number_of(line, 3) as usize;
    let marks = list_of(&mut marks, line, 4);
    let lengths = list_of(&mut lengths, line, 5);
    let list = list_of(&mut list, line, 6);
    let a = lawendeb_list_within_53(words, d, marks, lengths, list);
    number(out, a.number);
    text(out, b":");
    numbers(out, list);
    slices(out, marks, lengths);
}
