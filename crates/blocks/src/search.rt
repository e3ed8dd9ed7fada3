// For a block of registers at once: a word's state is the set of those that are unset on some way to it. It
// grows word by word, along the steps, until nothing changes. A bit that is no register's is set by no word,
// and so comes to all words that are reachable.
ghost use Rattle.std.specs.Prelude.{◌≡◌, ◌↔◌, IsTrue, ◌≤◌, ◌<◌, length};
ghost use Rattle.common.specs.Limits.{most_registers};
ghost use Rattle.blocks.specs.Blocks.{most_pages, SearchRoom, JoinAsks, Joins, Steps, SpreadAsks, Spreads};
ghost use Rattle.blocks.specs.Blocks.{HitsBy, BlockNotes, BlockVisits, Started, BlockSearched};

use crate::ranges::{BLOCK, in_ranges, next_in, set_by};
use crate::waiting::{Waiting, add, next_waiting};
use common::limits::MOST_REGISTERS;
use locations::answer::Touches;
use steps::lua54::successors::successors;
use sweep::edges::Successors;
use touches::touches;

// All registers of a block, and the bit that is no register's.
const EVERY: u64 = u64::MAX;

// What the visits have found: the lowest word that reads a register unset, the lowest register past the block
// that is read, and whether a word is bad. And where the only step of the last word leads, or the word
// itself: code that jumps is followed where the next word does not wait.
// Kept: (d) no Option for the lowest word and for the lowest register, since they only ever fall, the one
// from a limit that is asked of it, the other from the first number that is no register's.
#[derive(Drop)]
pub struct Seen {
    pub least: usize,
    pub next: usize,
    pub bad: bool,
    pub to: usize,
}

// Whether a word that touches t reads a register of the block that is unset there.
fn hits(t: &Touches, r: usize, at: u64) -> bool
    ensures { IsTrue result ↔ HitsBy r t.now at }
{
    in_ranges(r, t.reads.as_slice()) & at != 0
}

fn onward(s: Successors, p: usize) -> usize {
    if let Successors::One(a) = s { a } else { p }
}

impl Seen {
    // Word p, which touches t and goes on by s, is visited, and some registers are unset there.
    fn note(self, t: &Touches, s: Successors, r: usize, at: u64, p: usize) -> Seen
        requires { r ≤ most_registers }
        ensures { BlockNotes r t.now s at p self result }
    {
        let least = if hits(t, r, at) {
            self.least.min(p)
        } else {
            self.least
        };
        Seen {
            least,
            next: self.next.min(next_in(t.reads.as_slice(), r + BLOCK)),
            bad: self.bad | s.is_invalid(),
            to: onward(s, p),
        }
    }
}

// More registers are unset at word q. It waits, if that is new.
// Kept: slices where `Tables` has arrays, since a caller of `search` may lend tables of any length.
fn join(unset: &mut [u64], waiting: &mut [u8], pages: &mut [u8], q: usize, more: u64)
    requires { JoinAsks unset.old waiting.old pages.old q }
    ensures { Joins unset.old waiting.old pages.old q more unset.new waiting.new pages.new }
{
    let old = unset[q];
    let new = old | more;
    if new != old {
        unset[q] = new;
        add(waiting, pages, q);
    }
}

// A word that touches t goes on to word q: what is unset there is unset here, but for what it sets.
fn step(
    unset: &mut [u64],
    waiting: &mut [u8],
    pages: &mut [u8],
    t: &Touches,
    r: usize,
    at: u64,
    q: usize,
)
    requires { JoinAsks unset.old waiting.old pages.old q }
    ensures { Steps r t.now at q unset.old waiting.old pages.old unset.new waiting.new pages.new }
{
    join(unset, waiting, pages, q, at & (EVERY - set_by(r, t, q)));
}

fn spread(
    unset: &mut [u64],
    waiting: &mut [u8],
    pages: &mut [u8],
    t: &Touches,
    s: Successors,
    r: usize,
    at: u64,
)
    requires { SpreadAsks s unset.old waiting.old pages.old }
    ensures { Spreads r t.now at s unset.old waiting.old pages.old unset.new waiting.new pages.new }
{
    match s {
        Successors::Invalid | Successors::Stop => {}
        Successors::One(a) => step(unset, waiting, pages, t, r, at, a),
        Successors::Two(a, b) => {
            step(unset, waiting, pages, t, r, at, a);
            step(unset, waiting, pages, t, r, at, b);
        }
    }
}

// A word is visited: it no longer waits, unless a step leads back to it with more.
fn visit(
    words: &[u32],
    r: usize,
    unset: &mut [u64],
    waiting: &mut [u8],
    pages: &mut [u8],
    p: usize,
    seen: Seen,
) -> Seen
    requires { SearchRoom words.now unset.old waiting.old pages.old
        × (p < length words.now) × (r ≤ most_registers) }
    ensures { BlockVisits words.now r p unset.old waiting.old pages.old seen
        unset.new waiting.new pages.new result }
{
    waiting[p] = 0;
    let at = unset[p];
    let t = touches(words, p);
    let s = successors(words, p);
    spread(unset, waiting, pages, &t, s, r, at);
    seen.note(&t, s, r, at, p)
}

// At word 0 no register is set, and it alone of n waits.
fn start(n: usize, unset: &mut [u64], waiting: &mut [u8], pages: &mut [u8])
    requires { (0 < n) × (n ≤ length unset.old) × (n ≤ length waiting.old) × (length pages.old ≡ most_pages) }
    ensures { Started n unset.new waiting.new pages.new }
{
    unset[..n].fill(0);
    waiting[..n].fill(0);
    unset[0] = EVERY;
    add(waiting, pages, 0);
}

// The states of all words, for the registers from r on, and what the visits have found below a limit: in
// tables of any length that has room for the words.
pub fn search(
    words: &[u32],
    r: usize,
    unset: &mut [u64],
    waiting: &mut [u8],
    pages: &mut [u8],
    limit: usize,
) -> Seen
    requires { SearchRoom words.now unset.old waiting.old pages.old
        × (limit ≤ length words.now) × (r ≤ most_registers) }
    ensures { BlockSearched words.now r unset.new waiting.new pages.new limit result }
{
    let n = words.len();
    start(n, unset, waiting, pages);
    let mut seen = Seen {
        least: limit,
        next: MOST_REGISTERS,
        bad: false,
        to: 0,
    };
    let mut next = Some(0);
    while let Some(p) = next {
        seen = visit(words, r, unset, waiting, pages, p, seen);
        next = next_waiting(waiting, pages, p + 1, seen.to, n);
    }
    seen
}

// The registers of the block that are unset at each word on some way to it, and the words that wait.
#[derive(Drop)]
pub struct Tables<const N: usize> {
    pub unset: [u64; N],
    pub waiting: Waiting<N>,
}

impl<const N: usize> Tables<N> {
    // The search, in these tables.
    pub fn search(&mut self, words: &[u32], r: usize, limit: usize) -> Seen
        requires { SearchRoom words.now self.old.unset self.old.waiting.marks self.old.waiting.pages
            × (limit ≤ length words.now) × (r ≤ most_registers) }
        ensures { BlockSearched words.now r self.new.unset self.new.waiting.marks self.new.waiting.pages limit
            result }
    {
        search(
            words,
            r,
            &mut self.unset,
            &mut self.waiting.marks,
            &mut self.waiting.pages,
            limit,
        )
    }
}
