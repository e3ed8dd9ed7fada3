// What the cases print: only lists that hold something.
use locations::answer::{Indices, Ranges, Top, Touches};
pub use print_cases::text;
use print_cases::{end, number};
use std::io::Stdout;

fn ranges(out: Stdout, label: &[u8], r: Ranges) {
    if r.count > 0 {
        text(out, label);
    }
    for range in r.as_slice() {
        number(out, range.first);
        text(out, b" to");
        number(out, range.last);
    }
}

fn top(out: Stdout, label: &[u8], t: Top) {
    if t.count > 0 {
        text(out, label);
        number(out, t.first);
        text(out, b" up to the top");
    }
}

fn indices(out: Stdout, label: &[u8], r: Indices) {
    if r.count > 0 {
        text(out, label);
    }
    for &index in r.as_slice() {
        number(out, index);
    }
}

pub fn touches(out: Stdout, t: Touches) {
    text(out, b":");
    ranges(out, b" reads", t.reads);
    top(out, b" reads from", t.reads_to_top);
    indices(out, b" constants", t.constants);
    indices(out, b" upvalues", t.upvalues);
    ranges(out, b" writes", t.writes);
    top(out, b" writes from", t.writes_to_top);
    indices(out, b" upvalue writes", t.upvalue_writes);
    ranges(out, b" writes", t.edge_writes);
    if t.edge_writes.count > 0 {
        text(out, b" on the way to");
        number(out, t.edge as u64);
    }
    end(out);
}
