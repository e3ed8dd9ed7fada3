// The words of a longest run. The questions stand in the file stdin, a line each (crate vectors), and what
// is printed is held to the stored output.
#![tactic(auto)]

use common::Refusal;
use fields::version::Version;
use print_cases::{end, number, numbers, refusal, text};
use std::io::Stdout;
use vectors::{list_of, part};
use witness::{PathRun, longest_path};

fn answer(out: Stdout, r: Result<PathRun, Refusal>) {
    match r {
        Ok(PathRun { run, count }) => {
            text(out, b" accepted");
            number(out, run.longest);
            number(out, run.first as u64);
            number(out, count as u64);
        }
        Err(e) => refusal(out, e),
    }
}

// words | weights | marks | lengths | path, by the version that the name says
fn ask(out: Stdout, line: &[u8]) {
    let version = match part(line, 0) {
        b"path" => Version::Lua54,
        b"path_53" => Version::Lua53,
        _ => {
            return;
        }
    };
    let mut words = [0u32; 8];
    let mut weights = [0u8; 128];
    let mut marks = [0u8; 8];
    let mut lengths = [0u32; 8];
    let mut path = [0u32; 8];
    let words = list_of(&mut words, line, 2);
    let weights = list_of(&mut weights, line, 3);
    let marks = list_of(&mut marks, line, 4);
    let lengths = list_of(&mut lengths, line, 5);
    let path = list_of(&mut path, line, 6);
    text(out, part(line, 1));
    answer(
        out,
        longest_path(version, words, weights, marks, lengths, path),
    );
    text(out, b" path");
    numbers(out, path);
    end(out);
}

fn main(rt: HostRuntime) {
    let out = rt.stdout();
    vectors::inner::ask_each(rt.stdin(), |line| ask(out, line));
}
