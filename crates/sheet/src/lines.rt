// A line of the sheet. It is well formed if it is the line of the number that it shows, so there is no state
// machine: a number is read off any ten bytes, and the line of that number is compared with them.
ghost use Rattle.std.specs.Prelude.{◌≡◌, ◌+◌, ◌≤◌, length, take, drop};
ghost use Rattle.sheet.specs.Line.{line_of, line_value, same_bytes, is_line};

use crate::digits::{digit, glyph};
use common::limits::MOST_WORD;

// Ten columns and a newline.
pub(crate) const LINE: usize = 11;

// The number that the ten columns from index at show.
pub(crate) fn value(text: &[u8], at: usize) -> u64
    requires { at + 11 ≤ length text.now }
    ensures { result ≡ line_value (take 11 (drop at text.now)) }
{
    let mut v: u64 = 0;
    for column in &text[at..at + 10] {
        v = v * 10 + (*column % 16) as u64;
    }
    v
}

// Whether the line from index at is that of v. Compared from the right, as the digits come off v.
fn shows(text: &[u8], at: usize, v: u64) -> bool
    requires { at + 11 ≤ length text.now }
    ensures { result ≡ same_bytes (take 11 (drop at text.now)) (line_of v) }
{
    if text[at + 10] != b'\n' {
        return false;
    }
    if text[at + 9] != digit(v) {
        return false;
    }
    let mut rest = v / 10;
    for i in (0..9).rev() {
        if text[at + i] != glyph(rest) {
            return false;
        }
        rest /= 10;
    }
    true
}

// Whether a line of the sheet starts at index at.
pub(crate) fn is_line(text: &[u8], at: usize) -> bool
    requires { at ≤ length text.now }
    ensures { result ≡ is_line (take 11 (drop at text.now)) }
{
    if text.len() - at < LINE {
        return false;
    }
    let v = value(text, at);
    if MOST_WORD < v {
        return false;
    }
    shows(text, at, v)
}
