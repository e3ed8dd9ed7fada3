// Which words wait to be visited: a mark for each word, and one for each page of words, so that a page in
// which no word waits is passed over. Words are visited in their order, and from the first again when the
// last is passed: code mostly goes forward, so that a word's state is mostly settled when its turn comes.
ghost use Rattle.std.specs.Prelude.{◌≡◌, ◌&&◌, ◌+◌, ◌*◌, ◌/◌, ◌≤◌, ◌<◌, max, min, ltb, eqb, length};
ghost use Rattle.std.specs.Prelude.{get_or, set};
ghost use Rattle.common.specs.Limits.{most_words};
ghost use Rattle.blocks.specs.Blocks.{«PAGE», most_pages, Finds, Looks, Next, Paged};

// So many words a page has, and so many pages the words of a function at most.
const PAGE: usize = 128;

pub const PAGES: usize = 256;

// The marks of so many words, and those of their pages.
#[derive(Drop)]
pub struct Waiting<const N: usize> {
    pub marks: [u8; N],
    pub pages: [u8; PAGES],
}

pub(crate) fn add(waiting: &mut [u8], pages: &mut [u8], q: usize)
    requires { (q < length waiting.old) × (q / «PAGE» < length pages.old) }
    ensures { (waiting.new ≡ set waiting.old q 1) × (pages.new ≡ set pages.old (q / «PAGE») 1) }
{
    waiting[q] = 1;
    pages[q / PAGE] = 1;
}

// The first word from i on, before the end, that waits.
fn find(waiting: &[u8], i: usize, end: usize) -> Option<usize>
    requires { end ≤ length waiting.now }
    ensures { Finds waiting.now i end result }
{
    for p in i..end {
        if waiting[p] == 1 {
            return Some(p);
        }
    }
    None
}

// The same in a page of n words. If none of its words waits it loses its mark.
fn find_in_page(waiting: &[u8], pages: &mut [u8], page: usize, i: usize, n: usize) -> Option<usize>
    requires { (page < most_pages) × (n ≤ length waiting.now) × (length pages.old ≡ most_pages)
        × Paged n waiting.now pages.old }
    ensures looks { Looks n waiting.now pages.new }
    ensures finds { Finds waiting.now (max i (page * «PAGE»)) (min n ((page + 1) * «PAGE»)) result }
{
    if pages[page] == 0 {
        return None;
    }
    let found = find(waiting, i.max(page * PAGE), n.min((page + 1) * PAGE));
    if found.is_none() && i <= page * PAGE {
        pages[page] = 0;
    }
    found
}

// The first of n words from i on that waits.
fn find_from(waiting: &[u8], pages: &mut [u8], i: usize, n: usize) -> Option<usize>
    requires { (n ≤ most_words) × (n ≤ length waiting.now) × (length pages.old ≡ most_pages)
        × Paged n waiting.now pages.old }
    ensures looks { Looks n waiting.now pages.new }
    ensures finds { Finds waiting.now i n result }
{
    for page in i / PAGE..n.div_ceil(PAGE) {
        if let Some(p) = find_in_page(waiting, pages, page, i, n) {
            return Some(p);
        }
    }
    None
}

// Whether one of n words waits.
fn waits(waiting: &[u8], p: usize, n: usize) -> bool
    requires { n ≤ length waiting.now }
    ensures { result ≡ ltb p n && eqb (get_or waiting.now p 0) 1 }
{
    p < n && waiting[p] == 1
}

// A word of n that waits: the one at i, or where the last word's only step leads, or the next from i on, or
// the first.
pub(crate) fn next_waiting(
    waiting: &[u8],
    pages: &mut [u8],
    i: usize,
    to: usize,
    n: usize,
) -> Option<usize>
    requires { (n ≤ most_words) × (n ≤ length waiting.now) × (length pages.old ≡ most_pages)
        × Paged n waiting.now pages.old }
    ensures looks { Looks n waiting.now pages.new }
    ensures next { Next waiting.now n result }
{
    if waits(waiting, i, n) {
        return Some(i);
    }
    if waits(waiting, to, n) {
        return Some(to);
    }
    if let Some(p) = find_from(waiting, pages, i, n) {
        return Some(p);
    }
    find_from(waiting, pages, 0, n)
}
