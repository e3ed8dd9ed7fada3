// Lists the functions of a compiled script: a chunk on standard input, a line for each function on standard
// output, and nothing else. The line is `survey::line`, which is proved; here are the read and the writes.
#![tactic(auto)]

use std::io::Stdout;

// Writes the line of function k, and answers its length.
fn write_line(out: Stdout, bytes: &[u8], k: usize) -> usize {
    let mut page = survey::line_page();
    let r = survey::line(bytes, k, &mut page);
    let _ = out.write_all(&page[..r]);
    r
}

// The first line that is empty ends the list. So many numbers are enough, since there are no more functions
// than bytes: survey/specs/Claims.antt has it as `enough`.
fn write_lines(out: Stdout, bytes: &[u8]) {
    for k in 0..262144 {
        if write_line(out, bytes, k) == 0 {
            return;
        }
    }
}

fn main(rt: HostRuntime) {
    let mut buffer = survey::buffer();
    let n = input::read_full(&mut rt.stdin(), &mut buffer);
    write_lines(rt.stdout(), &buffer[..n]);
}
