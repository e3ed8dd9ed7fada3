// The successors of a word (document 01, "Steps", RULES 2).
ghost use Rattle.std.specs.Prelude.{◌≡◌, ◌+◌, ◌<◌, ◌^◌, pos, ◌+ℤ◌, ◌-ℤ◌, length, get_or};
ghost use Rattle.fields.specs.lua54.Word.{bx_of, sj_of};
ghost use Rattle.fields.specs.lua54.Table.{jump_after, metamethod_after, arithmetic_before};
ghost use Rattle.steps.specs.lua54.Columns.{class_from, companion_from};
ghost use Rattle.sweep.specs.Steps.{one, two, unless};
ghost use Rattle.steps.specs.lua54.Successors.{opcode_at, is_between, next_of, stands_at, successors_of};

use crate::alike::{away, past_companion, word_at};
use fields::lua54::columns::*;
use fields::lua54::opcodes::*;
use sweep::edges::Successors;
use sweep::inner::{one_of, two_of};

const OFFSET_SJ: usize = fields::lua54::word::OFFSET_SJ as usize;

pub(crate) fn jump(n: usize, word: u32, next: usize) -> Successors
    requires { next < 2 ^ 62 }
    ensures { result ≡ one n (pos next +ℤ sj_of word) }
{
    away(n, next, fields::lua54::word::ax(word), OFFSET_SJ)
}

fn loop_back(n: usize, word: u32, next: usize) -> Successors
    ensures { result ≡ two n (pos next -ℤ pos (bx_of word)) (pos next) }
{
    let back = fields::lua54::word::bx(word) as usize;
    if next < back {
        return Successors::Invalid;
    }
    if back == 0 {
        return one_of(n, next);
    }
    two_of(n, next - back, next)
}

// The steps of a step class, as the opcode table numbers them.
// Kept: the class is the number that the packed table has (packed bits): an enum would be made for each.
#[tactic(auto, unfolding(crate::specs::lua54::Columns::class_from))]
#[inline(always)]
fn next_of(class: u8, n: usize, word: u32, p: usize) -> Successors
    requires { p < 2 ^ 61 }
    ensures { result ≡ next_of (class_from class) n word p }
{
    match class {
        FOLLOWING => one_of(n, p + 1),
        RETURNING => Successors::Stop,
        BRANCHING => two_of(n, p + 1, p + 2),
        SKIPPING => one_of(n, p + 2),
        SKIPPING_IF_K => {
            if fields::lua54::word::k(word) == 1 {
                one_of(n, p + 2)
            } else {
                one_of(n, p + 1)
            }
        }
        JUMPING => jump(n, word, p + 1),
        LOOPING => loop_back(n, word, p + 1),
        PREPARING => two_of(n, p + 1, p + 2 + fields::lua54::word::bx(word) as usize),
        ENTERING => one_of(n, p + 1 + fields::lua54::word::bx(word) as usize),
        // INVALID
        _ => Successors::Invalid,
    }
}

#[tactic(auto, unfolding(crate::specs::lua54::Successors::is_between))]
fn is_between(first: u8, last: u8, opcode: u8) -> bool
    ensures { result ≡ is_between first last opcode }
{
    first <= opcode && opcode <= last
}

// The opcode of word i; past the end MOVE, which is no companion.
#[tactic(auto, unfolding(crate::specs::lua54::Successors::opcode_at))]
pub fn opcode_at(words: &[u32], i: usize) -> u8
    ensures { result ≡ opcode_at words.now i }
{
    fields::lua54::word::opcode(word_at(words, i))
}

// Whether a companion, as the opcode table numbers them, stands where word p wants it.
#[tactic(auto, unfolding(crate::specs::lua54::Columns::companion_from))]
#[inline(always)]
fn stands_at(companion: u8, words: &[u32], p: usize) -> bool
    requires { p < length words.now }
    ensures { result ≡ stands_at (companion_from companion) words.now p }
{
    match companion {
        ALONE => true,
        METAMETHOD_AFTER => is_between(OP_MMBIN, OP_MMBINK, opcode_at(words, p + 1)),
        ARITHMETIC_BEFORE => { 0 < p && is_between(OP_ADDI, OP_SHR, opcode_at(words, p - 1)) }
        JUMP_AFTER => opcode_at(words, p + 1) == OP_JMP,
        EXTRA_AFTER => opcode_at(words, p + 1) == OP_EXTRAARG,
        EXTRA_AFTER_IF_K => {
            if fields::lua54::word::k(words[p]) == 1 {
                opcode_at(words, p + 1) == OP_EXTRAARG
            } else {
                true
            }
        }
        CALL_AT_TARGET => {
            opcode_at(words, p + 1 + fields::lua54::word::bx(words[p]) as usize) == OP_TFORCALL
        }
        // LOOP_AFTER
        _ => opcode_at(words, p + 1) == OP_TFORLOOP,
    }
}

// The successors of word p by its companion and its step class, as the opcode table numbers them. Both
// callers have it in line, with `stands_at` and `next_of`: a rarer word would cost three calls else.
#[tactic(auto, unfolding(sweep::specs::Steps::unless))]
#[inline(always)]
pub(crate) fn successors_by(companion: u8, class: u8, words: &[u32], p: usize) -> Successors
    requires { p < length words.now }
    ensures { result ≡ unless (stands_at (companion_from companion) words.now p)
        (next_of (class_from class) (length words.now) (get_or words.now p 0) p) }
{
    if stands_at(companion, words, p) {
        next_of(class, words.len(), words[p], p)
    } else {
        Successors::Invalid
    }
}

// The rows of the most frequent words that want a companion. Of those with two steps the farther one is asked
// for first: where it is a word, the companion is one too.

#[tactic(auto, unfolding(crate::specs::lua54::Successors::opcode_at))]
pub(crate) fn test(words: &[u32], p: usize) -> Successors
    requires { p < length words.now }
    ensures { result ≡ unless (stands_at jump_after words.now p)
        (two (length words.now) (pos (p + 1)) (pos (p + 2))) }
{
    past_companion(words, p, |word| {
        fields::lua54::word::opcode(word) == OP_JMP
    })
}

#[tactic(auto, unfolding(crate::specs::lua54::Successors::opcode_at))]
pub(crate) fn arithmetic(words: &[u32], p: usize) -> Successors
    requires { p < length words.now }
    ensures { result ≡ unless (stands_at metamethod_after words.now p)
        (two (length words.now) (pos (p + 1)) (pos (p + 2))) }
{
    past_companion(words, p, |word| {
        is_between(OP_MMBIN, OP_MMBINK, fields::lua54::word::opcode(word))
    })
}

#[tactic(auto, unfolding(sweep::specs::Steps::unless))]
pub(crate) fn metamethod(words: &[u32], p: usize) -> Successors
    requires { p < length words.now }
    ensures { result ≡ unless (stands_at arithmetic_before words.now p)
        (one (length words.now) (pos (p + 1))) }
{
    if 0 < p && is_between(OP_ADDI, OP_SHR, opcode_at(words, p - 1)) {
        one_of(words.len(), p + 1)
    } else {
        Successors::Invalid
    }
}

// The successors of word p, by its companion and its step class in a byte. A word that wants
// nothing and a test come first.
pub fn successors(words: &[u32], p: usize) -> Successors
    ensures { result ≡ successors_of words.now p }
{
    if words.len() <= p {
        return Successors::Invalid;
    }
    let byte = fields::lua54::packed::companion_and_class(words[p]);
    if byte == 0 {
        return one_of(words.len(), p + 1);
    }
    let companion = byte / 16;
    let class = byte % 16;
    if companion == JUMP_AFTER && class == BRANCHING {
        return test(words, p);
    }
    successors_by(companion, class, words, p)
}
