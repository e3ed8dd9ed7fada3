// What the cases print.
use headers::Why;
use index::Listed;
use lines::FlatHead;
use lundump::Counts;
pub use print_cases::{end, numbers, text};
use std::io::Stdout;

pub fn answer(out: Stdout, l: Listed) {
    numbers(out, &[l.number, l.place, l.functions]);
}

pub fn counts(out: Stdout, c: Counts) {
    numbers(out, &[c.number, c.place, c.words]);
}

pub fn head(out: Stdout, h: FlatHead) {
    text(out, b" head");
    numbers(
        out,
        &[
            h.number,
            h.source,
            h.linedefined,
            h.lastlinedefined,
            h.numparams,
            h.is_vararg,
            h.maxstacksize,
        ],
    );
}

pub fn why(out: Stdout, w: Why) {
    match w {
        Why::NotLua => text(out, b" not a compiled script of Lua"),
        Why::Lua53 => text(out, b" of Lua 5.3"),
        Why::OtherVersion => text(out, b" of another version"),
        Why::OtherNumbers => text(out, b" of other numbers"),
        Why::Damaged => text(out, b" damaged"),
    }
}
