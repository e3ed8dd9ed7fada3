// The lengths of every word by two tables of weights, with one search (request C-18). The first pass, by the
// lower weights, keeps beside each length what the second needs of the word's entry, in the byte of its mark
// and above the length:
//
//           3 3 2 2 2 2 2 2 2 2 2 2 1 1 1 1 1 1 1 1 1 1 0 0 0 0 0 0 0 0 0 0     0 0 0 0 0 0 0 0
//           1 0 9 8 7 6 5 4 3 2 1 0 9 8 7 6 5 4 3 2 1 0 9 8 7 6 5 4 3 2 1 0     7 6 5 4 3 2 1 0
// searched |          Queue(15)          | K |          Target(15)         |   |      mark     |
// kept     |     Target      |                  Length(23)                 |   | K |   Target  |
// measured |        0        |                  Length(23)                 |   |      mark     |
//
// That is a word with a target of its own, at K 2 and 3. Of any other the bits above the length say nothing,
// and its byte is one of four numbers: 0 is an unreachable word's and 1 one's that goes on to the next, so
// that those marks stay as they are, and code that only goes on packs nothing. A test and arithmetic, which
// go on to the next word and to the one after it, have a number too. So both lengths that such a word needs
// are at hand: read from where they were stored two turns before, they would make each turn wait.
ghost use Rattle.std.specs.Prelude.{◌≡◌, ◌≤◌, ◌<◌, ◌%◌, eqb, length, get_or, position};
ghost use Rattle.common.specs.Lowest.{lowest};
ghost use Rattle.common.specs.Limits.{heaviest_weight};
ghost use Rattle.graph.specs.Longest.{most};
ghost use Rattle.sweep.specs.PassInvariants.{weight_by, FillAsks, SameBut, at};
ghost use Rattle.twice.specs.TwiceInvariants.{
  KEPT_LENGTHS,
  low_at,
  kept_in,
  length_by,
  KeepAsks,
  KeepsApart,
  Keeps,
  KeepsAll,
  RaiseAsks,
  SomeKept,
  Raises,
  Restored,
  Twice,
};

use sweep::inner::{
    ENTRIES, KIND_BOTH, KIND_NEXT, KIND_NONE, KIND_TARGET, Measured, RETURNS, TARGETS, beyond,
    weigh,
};

// A kept element is a length and this times the low bits of a target, 2^23; the target is those bits and the
// next times the others, 2^9.
const KEPT_LENGTHS: u32 = 8388608;

const SHARE: u32 = 512;

// So many kinds an entry has.
const KINDS: u32 = 4;

// Kept: numbers, no enum, since they are bytes of the marks.
// The bytes of reachable words: with the next word alone, which is the mark itself; with no step; and, from
// the others up, with the next word and the one after it, with a target, and with the next word and a target.
const KEPT_NEXT: u8 = 1;

const KEPT_NONE: u8 = 2;

const KEPT_SKIP: u8 = 3;

const KEPT_TARGET: u8 = 128;

const KEPT_BOTH: u8 = 192;

// As below, of a reachable word whose steps are not the next word alone.
fn keep_apart(marks: &mut [u8], lengths: &mut [u32], p: usize, weight: u32, above: u32) -> Measured
    requires { KeepsApart marks.old lengths.old p above × (weight ≤ heaviest_weight) }
    ensures { Keeps weight marks.old lengths.old p result.length
        result.invalid marks.new lengths.new }
{
    let entry = lengths[p] % ENTRIES;
    let kind = entry / TARGETS;
    if kind == KIND_NONE {
        marks[p] = KEPT_NONE;
        lengths[p] = weight;
        return Measured {
            length: weight,
            invalid: entry % TARGETS != RETURNS,
        };
    }
    marks[p] = (entry / SHARE) as u8;
    lengths[p] = 0;
    let x = beyond(lengths, p, (entry % TARGETS) as usize) % KEPT_LENGTHS;
    let low = entry % SHARE * KEPT_LENGTHS;
    if kind == KIND_TARGET {
        lengths[p] = x + weight + low;
        return Measured {
            length: x + weight,
            invalid: false,
        };
    }
    let v = above.max(x) + weight;
    lengths[p] = v + low;
    Measured {
        length: v,
        invalid: false,
    }
}

// Word p, of this weight, measured and kept, where the words above it are, and `above` and `after` are the
// lengths of the next two.
fn keep(
    marks: &mut [u8],
    lengths: &mut [u32],
    p: usize,
    weight: u32,
    above: u32,
    after: u32,
) -> Measured
    requires { KeepAsks marks.old lengths.old p above after × (weight ≤ heaviest_weight) }
    ensures { Keeps weight marks.old lengths.old p result.length
        result.invalid marks.new lengths.new }
{
    if marks[p] == 0 {
        lengths[p] = 0;
        return Measured {
            length: 0,
            invalid: false,
        };
    }
    if lengths[p] / TARGETS % KINDS == KIND_NEXT {
        let v = above + weight;
        lengths[p] = v;
        return Measured {
            length: v,
            invalid: false,
        };
    }
    if lengths[p] % ENTRIES == KIND_BOTH * TARGETS + (p + 2) as u32 {
        let v = above.max(after) + weight;
        marks[p] = KEPT_SKIP;
        lengths[p] = v;
        return Measured {
            length: v,
            invalid: false,
        };
    }
    keep_apart(marks, lengths, p, weight, above)
}

// The first pass: searched lengths and marks become kept ones. The lowest reachable invalid word, if there is
// one.
fn keep_lengths(
    mask: u32,
    words: &[u32],
    weights: &[u8],
    marks: &mut [u8],
    lengths: &mut [u32],
) -> Option<usize>
    requires { FillAsks marks.old lengths.old × (length words.now ≡ length lengths.old)
        × (mask < length weights.now) }
    ensures { KeepsAll (weight_by mask words.now weights.now)
        lengths.old marks.new lengths.new result }
{
    let mut invalid = None;
    let mut above: u32 = 0;
    let mut after: u32 = 0;
    for i in (0..lengths.len()).rev() {
        let weight = weigh(mask, weights, words[i]);
        let k = keep(marks, lengths, i, weight, above, after);
        after = above;
        above = k.length;
        if k.invalid {
            invalid = Some(i);
        }
    }
    invalid
}

// The length of word p, of this weight, by its kept steps, where the words above it have theirs, and `above`
// and `after` are those of the next two. What is left at p is for the caller to overwrite.
fn raise(marks: &[u8], lengths: &mut [u32], p: usize, weight: u32, above: u32, after: u32) -> u32
    requires { RaiseAsks marks.now lengths.old p above after × (weight ≤ heaviest_weight) }
    ensures value { result ≡ length_by (at lengths.old) weight (get_or marks.now p 0)
        (kept_in marks.now lengths.old p) p }
    ensures same_but { SameBut p lengths.old lengths.new }
{
    let byte = marks[p];
    if byte == KEPT_NEXT {
        return above + weight;
    }
    if byte < KEPT_TARGET {
        if KEPT_SKIP <= byte {
            return above.max(after) + weight;
        }
        if byte == 0 {
            return 0;
        }
        return weight;
    }
    let target = (byte as u32 * SHARE + lengths[p] / KEPT_LENGTHS % SHARE) % TARGETS;
    lengths[p] = 0;
    let x = beyond(lengths, p, target as usize);
    if byte < KEPT_BOTH {
        return x + weight;
    }
    above.max(x) + weight
}

// The second pass: kept lengths become measured ones, by other weights.
fn raise_lengths(mask: u32, words: &[u32], weights: &[u8], marks: &[u8], lengths: &mut [u32])
    requires { SomeKept marks.now lengths.old × (length words.now ≡ length lengths.old)
        × (mask < length weights.now) }
    ensures { Raises (weight_by mask words.now weights.now)
        marks.now lengths.old lengths.new }
{
    let mut above: u32 = 0;
    let mut after: u32 = 0;
    for i in (0..lengths.len()).rev() {
        let weight = weigh(mask, weights, words[i]);
        let v = raise(marks, lengths, i, weight, above, after);
        lengths[i] = v;
        after = above;
        above = v;
    }
}

// Kept bytes become marks, by themselves, so that the compiler takes many at a time.
fn restore_marks(marks: &mut [u8])
    ensures { Restored marks.old marks.new }
{
    for mark in marks.iter_mut() {
        *mark = (*mark).min(1);
    }
}

// The largest length of the first n kept elements.
// Kept: apart from `find_longest` of `sweep`, which reads whole elements; a closure for the reading is
// longer.
#[tactic(auto, unfolding(graph::specs::Longest::most))]
fn find_low(lengths: &[u32], n: usize) -> u32
    requires { n ≤ length lengths.now }
    ensures { result ≡ most (low_at lengths.now) n }
{
    let mut longest: u32 = 0;
    for kept in &lengths[..n] {
        longest = longest.max(*kept % KEPT_LENGTHS);
    }
    longest
}

// Where a length stands first, if it is among kept ones.
fn position_of(lengths: &[u32], sought: u32) -> Option<usize>
    ensures { result ≡ position (λ x. eqb (x % KEPT_LENGTHS) sought) lengths.now }
{
    lengths
        .iter()
        .position(|kept| *kept % KEPT_LENGTHS == sought)
}

// Where a length stands first among n kept ones, or n.
// Kept: n where there is none, as in `sweep`, and apart from it, as above.
#[tactic(auto, using(common::proofs::Lowest::lowest_found))]
fn find_kept(lengths: &[u32], n: usize, sought: u32) -> usize
    requires { n ≤ length lengths.now }
    ensures { result ≡ lowest (λ p. eqb (low_at lengths.now p) sought) n }
{
    position_of(&lengths[..n], sought).unwrap_or(n)
}

// What is left of the lower weights: the longest run by them, its first word, and the lowest reachable
// invalid word, if there is one.
#[derive(Drop)]
pub struct Lows {
    pub invalid: Option<usize>,
    pub longest: u32,
    pub first: usize,
}

// Searched lengths become those by the higher weights, and the marks stay. The run by the lower ones.
pub fn fill_twice(
    mask: u32,
    words: &[u32],
    low: &[u8],
    high: &[u8],
    marks: &mut [u8],
    lengths: &mut [u32],
) -> Lows
    requires { FillAsks marks.old lengths.old × (length words.now ≡ length lengths.old)
        × ((mask < length low.now) × (mask < length high.now)) }
    ensures { Twice (weight_by mask words.now low.now)
        (weight_by mask words.now high.now) lengths.old result.invalid
        result.longest result.first marks.new lengths.new }
{
    let n = lengths.len();
    let invalid = keep_lengths(mask, words, low, marks, lengths);
    let longest = find_low(lengths, n);
    let first = find_kept(lengths, n, longest);
    raise_lengths(mask, words, high, marks, lengths);
    restore_marks(marks);
    Lows {
        invalid,
        longest,
        first,
    }
}
