// The distance and the length of every word in one pass, from the highest down, where every word weighs 1: an
// edge that does not serve goes forward, so that what it needs is there. Searched lengths become paired ones:
//
//           3 3 2 2 2 2 2 2 2 2 2 2 1 1 1 1 1 1 1 1 1 1 0 0 0 0 0 0 0 0 0 0
//           1 0 9 8 7 6 5 4 3 2 1 0 9 8 7 6 5 4 3 2 1 0 9 8 7 6 5 4 3 2 1 0
// searched |          Queue(15)          | K |          Target(15)         |
// paired   |          Distance(16)         |           Length(16)          |
//
// Each is 32,768 at most. An unreachable word has 0, and so no distance: no reachable word goes on to it, and
// none but a reachable one is listed.
ghost use Rattle.std.specs.Prelude.{◌≡◌, cond, ◌/◌, ◌%◌, min, max};
ghost use Rattle.sweep.specs.Steps.{serves_of};
ghost use Rattle.sweep.specs.PassInvariants.{FillAsks};
ghost use Rattle.service.specs.Pairs.{«LENGTHS», Pairing, Paired, Pairs};

use sweep::edges::serves;
use sweep::inner::{ENTRIES, KIND_NEXT, KIND_NONE, KIND_TARGET, RETURNS, TARGETS};

// A pair is a distance times this, and a length: 2^16.
pub(crate) const LENGTHS: u32 = 65536;

// A word more, in the distance and in the length.
const ONE_WORD: u32 = 65537;

// What an edge from p to q goes on to, where q has this pair: nothing if it serves, so that neither number
// counts a word after p.
fn beyond(p: usize, q: usize, pair: u32) -> u32
    ensures { result ≡ cond (serves_of p q) 0 pair }
{
    if serves(p, q) {
        return 0;
    }
    pair
}

// Of two pairs the smaller distance and the larger length.
fn join(x: u32, y: u32) -> u32
    ensures { (result / «LENGTHS» ≡ min (x / «LENGTHS») (y / «LENGTHS»))
        × (result % «LENGTHS» ≡ max (x % «LENGTHS») (y % «LENGTHS»)) }
{
    let distance = (x / LENGTHS).min(y / LENGTHS);
    let length = (x % LENGTHS).max(y % LENGTHS);
    distance * LENGTHS + length
}

// The pair of a word, and the lowest reachable invalid word from it on, if one is.
#[derive(Clone, Copy)]
struct Found {
    pair: u32,
    invalid: Option<usize>,
}

// Word p, where the words above it are paired, and `above` is what was found of the next. It is handed on, so
// that a turn need not wait for what the one before it stored.
fn pair_word(marks: &[u8], lengths: &[u32], p: usize, above: Found) -> Found
    requires { Pairing marks.now lengths.now p above.pair }
    ensures { Paired marks.now lengths.now p above.invalid result.pair result.invalid }
{
    if marks[p] == 0 {
        return Found { pair: 0, ..above };
    }
    let entry = lengths[p] % ENTRIES;
    let kind = entry / TARGETS;
    if kind == KIND_NEXT {
        return Found {
            pair: above.pair + ONE_WORD,
            ..above
        };
    }
    if kind == KIND_NONE {
        if entry % TARGETS == RETURNS {
            return Found {
                pair: ONE_WORD,
                ..above
            };
        }
        return Found {
            pair: ONE_WORD,
            invalid: Some(p),
        };
    }
    let to = (entry % TARGETS) as usize;
    let x = beyond(p, to, lengths[to]);
    if kind == KIND_TARGET {
        return Found {
            pair: x + ONE_WORD,
            ..above
        };
    }
    Found {
        pair: join(above.pair, x) + ONE_WORD,
        ..above
    }
}

// The pair of each word, where its entry stood. The lowest reachable invalid word, if one is.
pub(crate) fn pair_words(marks: &[u8], lengths: &mut [u32]) -> Option<usize>
    requires { FillAsks marks.now lengths.old }
    ensures { Pairs lengths.old lengths.new result }
{
    let mut found = Found {
        pair: 0,
        invalid: None,
    };
    for i in (0..lengths.len()).rev() {
        found = pair_word(marks, lengths, i, found);
        lengths[i] = found.pair;
    }
    found.invalid
}
