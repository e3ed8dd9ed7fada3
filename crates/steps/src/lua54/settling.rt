// The pass that settles the steps of every word before the search begins (request C-12). It alone reads words
// for their steps: what comes after goes by the entries that it leaves.
ghost use Rattle.std.specs.Prelude.{◌≡◌, false, cond, ◌≤◌, ◌<◌, eqb, length, get_or};
ghost use Rattle.common.specs.Limits.{most_words};
ghost use Rattle.fields.specs.lua54.Table.{opcode_table};
ghost use Rattle.steps.specs.lua54.Columns.{class_from, companion_from};
ghost use Rattle.steps.specs.lua54.Successors.{next_of, stands_at, successors_of};
ghost use Rattle.sweep.specs.Entries.{Says, Settled, entries};
ghost use Rattle.sweep.specs.Steps.{unless};

use crate::lua54::successors::{arithmetic, jump, metamethod, successors_by, test};
use fields::lua54::columns::*;
use sweep::inner::{entry_of, one_of};

// Whether a word wants no companion and goes on to the next. Both columns are asked in one test, so that the
// compiler puts no table of jumps before the most frequent words.
fn goes_on(companion: u8, class: u8) -> bool
    ensures { result ≡ cond (eqb companion 0) (eqb class 0) false }
{
    companion == ALONE && class == FOLLOWING
}

// The entry of a rarer word, by its companion and its step class. It stays out of the loop: there the steps
// would lie in memory that is cleared for every word, rare or not.
#[inline(never)]
fn entry_by(companion: u8, class: u8, words: &[u32], p: usize) -> u32
    requires { (length words.now ≤ most_words) × (p < length words.now)
        × (unless (stands_at (companion_from companion) words.now p)
        (next_of (class_from class) (length words.now) (get_or words.now p 0) p)
        ≡ successors_of words.now p) }
    ensures { Says result p (successors_of words.now p) }
{
    entry_of(successors_by(companion, class, words, p), p)
}

// The entry of word p, by a lent copy of the opcode table. The most frequent words come first, and each has
// its own call, so that the compiler puts the call's answer into the loop.
// Kept: what branches is asked for first, by itself: joined by `&&`, real code took one or two instructions
// a word more.
pub(crate) fn entry_in(table: &[u8; 512], words: &[u32], p: usize) -> u32
    requires { (table.now ≡ opcode_table) × (length words.now ≤ most_words) × (p < length words.now) }
    ensures { Says result p (successors_of words.now p) }
{
    let word = words[p];
    let companion = fields::lua54::lookup::companion_in(table, word);
    let class = fields::lua54::lookup::step_class_in(table, word);
    if goes_on(companion, class) {
        return entry_of(one_of(words.len(), p + 1), p);
    }
    if companion == ALONE && class == JUMPING {
        return entry_of(jump(words.len(), word, p + 1), p);
    }
    if class == BRANCHING {
        if companion == JUMP_AFTER {
            return entry_of(test(words, p), p);
        }
        if companion == METAMETHOD_AFTER {
            return entry_of(arithmetic(words, p), p);
        }
    }
    if companion == ARITHMETIC_BEFORE && class == FOLLOWING {
        return entry_of(metamethod(words, p), p);
    }
    entry_by(companion, class, words, p)
}

// The entries of all words: their steps are those of document 01's table (RULES 2).
pub fn settle_edges(table: &[u8; 512], words: &[u32], lengths: &mut [u32])
    requires { (table.now ≡ opcode_table) × (length words.now ≤ most_words)
        × (length lengths.old ≡ length words.now) }
    ensures { Settled (length words.now) (successors_of words.now)
        (entries lengths.new) }
{
    for (p, length) in lengths.iter_mut().enumerate() {
        *length = entry_in(table, words, p);
    }
}
