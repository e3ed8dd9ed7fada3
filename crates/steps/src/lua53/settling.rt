// The pass that settles the steps of every word of Lua 5.3 (request C-24). What comes after goes by
// the entries that it leaves.
ghost use Rattle.std.specs.Prelude.{◌≡◌, ◌≤◌, ◌<◌, length};
ghost use Rattle.common.specs.Limits.{most_words};
ghost use Rattle.steps.specs.lua53.Successors.{successors_of};
ghost use Rattle.sweep.specs.Entries.{Says, Settled, entries};

use crate::lua53::successors::{jump, successors_by, test};
use fields::lua53::columns::*;
use sweep::inner::{entry_of, one_of};

// The entry of word p. The most frequent words come first, and each has its own call, so that the
// compiler puts the call's answer into the loop. A comparison with A above 1, which no compiler writes,
// is left to the last call.
pub(crate) fn entry_at(words: &[u32], p: usize) -> u32
    requires { (length words.now ≤ most_words) × (p < length words.now) }
    ensures { Says result p (successors_of words.now p) }
{
    let word = words[p];
    let byte = fields::lua53::packed::companion_and_class(word);
    if byte == 0 {
        return entry_of(one_of(words.len(), p + 1), p);
    }
    let companion = byte / 16;
    let class = byte % 16;
    if companion == ALONE && class == JUMPING {
        return entry_of(jump(words.len(), word, p + 1), p);
    }
    if companion == JUMP_AFTER && class == BRANCHING {
        return entry_of(test(words, p), p);
    }
    if companion == JUMP_AFTER && class == COMPARING && fields::lua53::word::a(word) <= 1 {
        return entry_of(test(words, p), p);
    }
    entry_of(successors_by(companion, class, words, p), p)
}

// The entries of all words.
// Kept: a loop for each version: three lines, which a closure or a trait for both would not shorten.
pub fn settle_edges(words: &[u32], lengths: &mut [u32])
    requires { (length words.now ≤ most_words) × (length lengths.old ≡ length words.now) }
    ensures { Settled (length words.now) (successors_of words.now)
        (entries lengths.new) }
{
    for (p, length) in lengths.iter_mut().enumerate() {
        *length = entry_at(words, p);
    }
}
