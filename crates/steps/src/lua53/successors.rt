// The successors of a word of Lua 5.3 (request C-24).
ghost use Rattle.std.specs.Prelude.{◌≡◌, ◌+◌, ◌<◌, ◌^◌, pos, ◌+ℤ◌, length, get_or};
ghost use Rattle.fields.specs.lua53.Word.{sbx_of};
ghost use Rattle.fields.specs.lua53.Table.{jump_after};
ghost use Rattle.steps.specs.lua53.Columns.{class_from, companion_from};
ghost use Rattle.sweep.specs.Steps.{one, two, unless};
ghost use Rattle.steps.specs.lua53.Successors.{opcode_at, next_of, stands_at, successors_of};

use crate::alike::{away, past_companion, word_at};
use fields::lua53::columns::*;
use fields::lua53::opcodes::*;
use sweep::edges::Successors;
use sweep::inner::{both_of, one_of, two_of};

const OFFSET_SBX: usize = fields::lua53::word::OFFSET_SBX as usize;

pub(crate) fn jump(n: usize, word: u32, next: usize) -> Successors
    requires { next < 2 ^ 62 }
    ensures { result ≡ one n (pos next +ℤ sbx_of word) }
{
    away(n, next, fields::lua53::word::bx(word), OFFSET_SBX)
}

// A loop goes on, mostly back, or ends.
fn loop_or_end(n: usize, word: u32, next: usize) -> Successors
    requires { next < 2 ^ 62 }
    ensures { result ≡ two n (pos next +ℤ sbx_of word) (pos next) }
{
    let to = next + fields::lua53::word::bx(word) as usize;
    if to < OFFSET_SBX {
        return Successors::Invalid;
    }
    both_of(n, to - OFFSET_SBX, next)
}

// The steps of a step class, as 5.3's opcode table numbers them.
// Kept: the class is the number that the packed table has (packed bits): an enum would be made for each.
#[tactic(auto, unfolding(crate::specs::lua53::Columns::class_from))]
fn next_of(class: u8, n: usize, word: u32, p: usize) -> Successors
    requires { p < 2 ^ 61 }
    ensures { result ≡ next_of (class_from class) n word p }
{
    match class {
        FOLLOWING => one_of(n, p + 1),
        RETURNING => Successors::Stop,
        BRANCHING => two_of(n, p + 1, p + 2),
        COMPARING => {
            if fields::lua53::word::a(word) > 1 {
                one_of(n, p + 2)
            } else {
                two_of(n, p + 1, p + 2)
            }
        }
        SKIPPING => one_of(n, p + 2),
        SKIPPING_IF_C => {
            if fields::lua53::word::c(word) == 0 {
                one_of(n, p + 1)
            } else {
                one_of(n, p + 2)
            }
        }
        SKIPPING_UNLESS_C => {
            if fields::lua53::word::c(word) == 0 {
                one_of(n, p + 2)
            } else {
                one_of(n, p + 1)
            }
        }
        JUMPING => jump(n, word, p + 1),
        LOOPING => loop_or_end(n, word, p + 1),
        // INVALID
        _ => Successors::Invalid,
    }
}

// The opcode of word i; past the end MOVE, which is no companion.
#[tactic(auto, unfolding(crate::specs::lua53::Successors::opcode_at))]
pub fn opcode_at(words: &[u32], i: usize) -> u8
    ensures { result ≡ opcode_at words.now i }
{
    fields::lua53::word::opcode(word_at(words, i))
}

// Whether a companion, as 5.3's opcode table numbers them, stands where word p wants it.
#[tactic(auto, unfolding(crate::specs::lua53::Columns::companion_from))]
fn stands_at(companion: u8, words: &[u32], p: usize) -> bool
    requires { p < length words.now }
    ensures { result ≡ stands_at (companion_from companion) words.now p }
{
    match companion {
        ALONE => true,
        JUMP_AFTER => opcode_at(words, p + 1) == OP_JMP,
        EXTRA_AFTER => opcode_at(words, p + 1) == OP_EXTRAARG,
        EXTRA_AFTER_UNLESS_C => {
            if fields::lua53::word::c(words[p]) == 0 {
                opcode_at(words, p + 1) == OP_EXTRAARG
            } else {
                true
            }
        }
        // LOOP_AFTER
        _ => opcode_at(words, p + 1) == OP_TFORLOOP,
    }
}

// The successors of word p by its companion and its step class, as 5.3's opcode table numbers them.
// Kept: as 5.4's, of 5.3's rows: in a trait for both, its methods would be in one cycle of calls.
#[tactic(auto, unfolding(sweep::specs::Steps::unless))]
pub(crate) fn successors_by(companion: u8, class: u8, words: &[u32], p: usize) -> Successors
    requires { p < length words.now }
    ensures { result ≡ unless (stands_at (companion_from companion) words.now p)
        (next_of (class_from class) (length words.now) (get_or words.now p 0) p) }
{
    if stands_at(companion, words, p) {
        next_of(class, words.len(), words[p], p)
    } else {
        Successors::Invalid
    }
}

// A test that goes on either way, the most frequent word that wants a companion. The farther step is asked
// for first: where it is a word, the JMP is one too.
#[tactic(auto, unfolding(crate::specs::lua53::Successors::opcode_at))]
pub(crate) fn test(words: &[u32], p: usize) -> Successors
    requires { p < length words.now }
    ensures { result ≡ unless (stands_at jump_after words.now p)
        (two (length words.now) (pos (p + 1)) (pos (p + 2))) }
{
    past_companion(words, p, |word| {
        fields::lua53::word::opcode(word) == OP_JMP
    })
}

// The successors of word p, by its companion and its step class in a byte. A word that wants
// nothing and goes on comes first.
pub fn successors(words: &[u32], p: usize) -> Successors
    ensures { result ≡ successors_of words.now p }
{
    if words.len() <= p {
        return Successors::Invalid;
    }
    let byte = fields::lua53::packed::companion_and_class(words[p]);
    if byte == 0 {
        return one_of(words.len(), p + 1);
    }
    successors_by(byte / 16, byte % 16, words, p)
}
