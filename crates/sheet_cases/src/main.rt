// Sheets at the edges of the format, with what the program writes for each. They stand in the file stdin, a
// line each (crate vectors), and what is printed is held to the stored output.
#![tactic(auto)]

mod buffers;

use buffers::repeated;
use print_cases::{decimal, end, text};
use std::io::Stdout;
use vectors::{list_of, number_of, part};

// The first n bytes of a buffer as a sheet.
fn show(out: Stdout, buffer: &[u8; 65536], n: usize) {
    let mut page = listing::page();
    let r = listing::answer(buffer, n, &mut page);
    text(out, &page[..r]);
}

// A sheet of few bytes: its text
fn sheet(out: Stdout, line: &[u8]) {
    let mut buffer = io::large_buffer();
    let n = list_of(&mut buffer, line, 2).len();
    show(out, &buffer, n);
}

// bytes | places | what stands there | n
fn large(out: Stdout, line: &[u8]) {
    show(out, &repeated(line), number_of(line, 5) as usize);
}

// Of a large sheet the answer's count of bytes, and its last 75: two words' lines and the last line.
fn large_end(out: Stdout, line: &[u8]) {
    let mut page = listing::page();
    let r = listing::answer(&repeated(line), number_of(line, 5) as usize, &mut page);
    decimal(out, r as u64);
    end(out);
    if 75 <= r {
        text(out, &page[r - 75..r]);
    }
}

fn ask(out: Stdout, line: &[u8]) {
    let question: fn(Stdout, &[u8]) = match part(line, 0) {
        b"sheet" => sheet,
        b"large" => large,
        b"end" => large_end,
        _ => {
            return;
        }
    };
    text(out, part(line, 1));
    end(out);
    question(out, line);
}

fn main(rt: HostRuntime) {
    let out = rt.stdout();
    vectors::inner::ask_each(rt.stdin(), |line| ask(out, line));
}
