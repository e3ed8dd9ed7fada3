// The length of every word, from the highest down: an edge that does not serve goes forward, so that what it
// needs is there. Searched lengths become measured ones (packing.rt has the bits): a word's entry says where
// control goes, and its length takes the entry's place. Of the word itself nothing is read but some of its
// bits, by a mask, which are the place of its weight in a table.
ghost use Rattle.std.specs.Prelude.{
  ◌≡◌,
  cond,
  ◌++◌,
  ◌≤◌,
  ◌<◌,
  eqb,
  length,
  get_or,
  drop,
  replicate,
  position,
};
ghost use Rattle.std.specs.Int.Bits.{bit_and};
ghost use Rattle.common.specs.Lowest.{lowest};
ghost use Rattle.common.specs.Limits.{heaviest_weight};
ghost use Rattle.graph.specs.Longest.{most};
ghost use Rattle.sweep.specs.Steps.{serves_of};
ghost use Rattle.sweep.specs.PassInvariants.{
  most_weight,
  weight_by,
  FillAsks,
  Fills,
  Measuring,
  Measures,
  SameBut,
  at,
};

use crate::edges::serves;
use crate::packing::{ENTRIES, KIND_NEXT, KIND_NONE, KIND_TARGET, RETURNS, TARGETS};

// What a word weighs: a byte of the table, at the place that a mask leaves of the word.
pub fn weigh(mask: u32, weights: &[u8], word: u32) -> u32
    requires { mask < length weights.now }
    ensures { (result ≡ get_or weights.now (bit_and word mask) 0) × (result ≤ heaviest_weight) }
{
    weights[(word & mask) as usize] as u32
}

// The later of two words.
fn later(p: usize, q: usize) -> usize
    ensures { result ≡ cond (serves_of p q) p q }
{
    if serves(p, q) { p } else { q }
}

// What an edge from p to q adds to a segment, where p's own place holds 0: an edge that serves adds what
// stands there. So the compiler puts no jump here, of which a processor would guess every other one wrong in
// scattered code.
pub fn beyond(lengths: &[u32], p: usize, q: usize) -> u32
    requires { (p < length lengths.now) × (q < length lengths.now) × (at lengths.now p ≡ 0) }
    ensures { result ≡ cond (serves_of p q) 0 (at lengths.now q) }
{
    lengths[later(p, q)]
}

// The length of a word, and whether it is reachable and invalid.
#[derive(Drop)]
pub struct Measured {
    pub length: u32,
    pub invalid: bool,
}

// Word p, of this weight, measured, where the words above it are, and `above` is the length of the next. That
// length is handed on, so that a turn need not wait for what the one before it stored. What is left at p is
// for the caller to overwrite.
fn measure(marks: &[u8], lengths: &mut [u32], p: usize, weight: u32, above: u32) -> Measured
    requires { Measuring most_weight marks.now lengths.old p above × (weight ≤ heaviest_weight) }
    ensures measures { Measures (λ _. weight) marks.now lengths.old p
        result.length result.invalid }
    ensures same_but { SameBut p lengths.old lengths.new }
{
    if marks[p] == 0 {
        return Measured {
            length: 0,
            invalid: false,
        };
    }
    let entry = lengths[p] % ENTRIES;
    let kind = entry / TARGETS;
    if kind == KIND_NEXT {
        return Measured {
            length: above + weight,
            invalid: false,
        };
    }
    if kind == KIND_NONE {
        return Measured {
            length: weight,
            invalid: entry % TARGETS != RETURNS,
        };
    }
    lengths[p] = 0;
    let x = beyond(lengths, p, (entry % TARGETS) as usize);
    if kind == KIND_TARGET {
        return Measured {
            length: x + weight,
            invalid: false,
        };
    }
    Measured {
        length: above.max(x) + weight,
        invalid: false,
    }
}

// The length of each word, where its entry stood: searched lengths become measured ones. The lowest reachable
// invalid word, if there is one.
pub fn fill_lengths(
    mask: u32,
    words: &[u32],
    weights: &[u8],
    marks: &[u8],
    lengths: &mut [u32],
) -> Option<usize>
    requires { FillAsks marks.now lengths.old × (length words.now ≡ length lengths.old)
        × (mask < length weights.now) }
    ensures { Fills (weight_by mask words.now weights.now) lengths.old
        lengths.new result }
{
    let mut invalid = None;
    let mut above: u32 = 0;
    for i in (0..lengths.len()).rev() {
        let weight = weigh(mask, weights, words[i]);
        let m = measure(marks, lengths, i, weight, above);
        lengths[i] = m.length;
        above = m.length;
        if m.invalid {
            invalid = Some(i);
        }
    }
    invalid
}

// The first n lengths become 0.
pub fn clear_lengths(lengths: &mut [u32], n: usize)
    requires { n ≤ length lengths.old }
    ensures { lengths.new ≡ replicate n 0 ++ drop n lengths.old }
{
    lengths[..n].fill(0);
}

// The largest of the first n lengths. Where it stands is found by itself, so that the compiler takes several
// at a time here.
#[tactic(auto, unfolding(graph::specs::Longest::most))]
pub fn find_longest(lengths: &[u32], n: usize) -> u32
    requires { n ≤ length lengths.now }
    ensures { result ≡ most (at lengths.now) n }
{
    let mut longest: u32 = 0;
    for length in &lengths[..n] {
        longest = longest.max(*length);
    }
    longest
}

// Where a length stands first, if it is among them.
fn position_of(lengths: &[u32], sought: u32) -> Option<usize>
    ensures { result ≡ position (λ x. eqb x sought) lengths.now }
{
    lengths.iter().position(|length| *length == sought)
}

// Where a length stands first among n, or n.
// Kept: n where there is none, as `lowest` says it, by which the run's theorem says its first word.
#[tactic(auto, using(common::proofs::Lowest::lowest_found))]
pub fn find_first(lengths: &[u32], n: usize, sought: u32) -> usize
    requires { n ≤ length lengths.now }
    ensures { result ≡ lowest (λ p. eqb (at lengths.now p) sought) n }
{
    position_of(&lengths[..n], sought).unwrap_or(n)
}
