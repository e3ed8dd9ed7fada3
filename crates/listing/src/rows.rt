// The listing of words whose lengths are known.
ghost use Rattle.std.specs.Prelude.{◌≡◌, ◌+◌, ◌*◌, ◌≤◌, ◌<◌, length};
ghost use Rattle.common.specs.Lists.{put};
ghost use Rattle.listing.specs.Answer.{first_cell, second_cell, line_at, listing_of};

use common::inner::put_text;
use sweep::edges::Successors;

// Bytes in a word's line.
const ROW: usize = 31;

fn first_cell(s: Successors) -> Option<usize>
    ensures { result ≡ first_cell s }
{
    match s {
        Successors::Invalid | Successors::Stop => None,
        Successors::One(q) | Successors::Two(q, _) => Some(q),
    }
}

fn second_cell(s: Successors) -> Option<usize>
    ensures { result ≡ second_cell s }
{
    match s {
        Successors::Invalid | Successors::Stop | Successors::One(_) => None,
        Successors::Two(_, q) => Some(q),
    }
}

// The line of word p.
fn line(words: &[u32], lengths: &[u32], p: usize) -> [u8; 31]
    requires { (p < length words.now) × (p < length lengths.now) }
    ensures { result ≡ line_at words.now lengths.now p }
{
    let s = steps::lua54::successors::successors(words, p);
    sheet::row(
        p,
        fields::lua54::word::opcode(words[p]),
        first_cell(s),
        second_cell(s),
        lengths[p],
    )
}

// Puts the listing on the page, and answers how long it is.
pub(crate) fn put_listing(
    words: &[u32],
    lengths: &[u32],
    longest: u32,
    first: usize,
    page: &mut [u8],
) -> usize
    requires { (length words.now ≤ length lengths.now)
        × (31 * length words.now + 13 ≤ length page.old) }
    ensures value { result ≡ 31 * length words.now + 13 }
    ensures page_after { page.new
        ≡ put page.old 0 (listing_of words.now lengths.now longest first) }
{
    let n = words.len();
    for p in 0..n {
        put_text(page, ROW * p, &line(words, lengths, p));
    }
    put_text(page, ROW * n, &sheet::last_line(longest, first));
    ROW * n + 13
}
