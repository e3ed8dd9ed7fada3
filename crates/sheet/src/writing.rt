// The lines of the listing, each as an array of its own.
ghost use Rattle.std.specs.Prelude.{◌≡◌, [], ◌∷◌, ◌++◌, ◌+◌, ◌-◌, ◌≤◌, ◌<◌, length};
ghost use Rattle.common.specs.Lists.{put};
ghost use Rattle.sheet.specs.Columns.{leading, columns};
ghost use Rattle.sheet.specs.Rows.{cell_of, row_of, pair_of, last_line_of, refusal_line_of};

use crate::digits::{digit, glyph};

// Puts the digits of tens right-justified, and the byte last after them, into width columns.
fn put_ending(out: &mut [u8], at: usize, width: usize, tens: u64, last: u8)
    requires { (0 < width) × (at + width ≤ length out.old) }
    ensures { out.new ≡ put out.old at (leading (width - 1) tens ++ (last ∷ [])) }
{
    let end = width - 1;
    out[at + end] = last;
    let mut rest = tens;
    for i in (0..end).rev() {
        out[at + i] = glyph(rest);
        rest /= 10;
    }
}

fn put_number(out: &mut [u8], at: usize, v: u64)
    requires { at + 6 ≤ length out.old }
    ensures { out.new ≡ put out.old at (columns 6 v) }
{
    put_ending(out, at, 6, v / 10, digit(v));
}

// A number, or `-` where there is none.
fn put_cell(out: &mut [u8], at: usize, c: Option<usize>)
    requires { at + 6 ≤ length out.old }
    ensures { out.new ≡ put out.old at (cell_of c) }
{
    match c {
        Some(v) => put_number(out, at, v as u64),
        None => put_ending(out, at, 6, 0, b'-'),
    }
}

// A column by itself.
pub fn column(c: Option<usize>) -> [u8; 6]
    ensures { result ≡ cell_of c }
{
    let mut out = [b' '; 6];
    put_cell(&mut out, 0, c);
    out
}

// The line of word p.
pub fn row(
    p: usize,
    opcode: u8,
    first: Option<usize>,
    second: Option<usize>,
    segment: u32,
) -> [u8; 31]
    ensures { result ≡ row_of p opcode first second segment }
{
    let mut out = [b'\n'; 31];
    put_number(&mut out, 0, p as u64);
    put_number(&mut out, 6, opcode as u64);
    put_cell(&mut out, 12, first);
    put_cell(&mut out, 18, second);
    put_number(&mut out, 24, segment as u64);
    out
}

// A line of two numbers.
fn pair(left: u64, right: u64) -> [u8; 13]
    ensures { result ≡ pair_of left right }
{
    let mut out = [b'\n'; 13];
    put_number(&mut out, 0, left);
    put_number(&mut out, 6, right);
    out
}

// The last line of the listing.
pub fn last_line(longest: u32, first: usize) -> [u8; 13]
    ensures { result ≡ last_line_of longest first }
{
    pair(longest as u64, first as u64)
}

// The only line of a refusal.
pub fn refusal_line(number: u8, place: usize) -> [u8; 13]
    ensures { result ≡ refusal_line_of number place }
{
    pair(number as u64, place as u64)
}
