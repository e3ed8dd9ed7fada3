// The bits of an element of the lengths. It has three lives, one after the other, and is called by the last
// thing done to it:
//
//           3 3 2 2 2 2 2 2 2 2 2 2 1 1 1 1 1 1 1 1 1 1 0 0 0 0 0 0 0 0 0 0
//           1 0 9 8 7 6 5 4 3 2 1 0 9 8 7 6 5 4 3 2 1 0 9 8 7 6 5 4 3 2 1 0
// settled  |              0              | K |          Target(15)         |
// searched |          Queue(15)          | K |          Target(15)         |
// measured |        0        |                  Length(23)                 |
//
// Settled, element p is the entry of word p, its steps in one number: K, the kind, and a target
// (specs/Entries.antt). Searched, it has above the entry, which stays, an element of the queue: the p-th word
// that waited there. Measured, it is the word's length alone, below 2^23 since 32,768 words weigh 255 each at
// most.
//
// No word is read here: the entry is of steps, whatever instruction set gives them. Of two steps one is the
// next word, so that a kind and one target say all of them.
ghost use Rattle.std.specs.Prelude.{◌<◌};
ghost use Rattle.common.specs.Limits.{most_words};
ghost use Rattle.sweep.specs.Entries.{Packs, Says};

use crate::edges::Successors;

// An entry is a kind times this, and a target: 2^15.
pub const TARGETS: u32 = 32768;

// Entries are below this, 2^17. What an element holds from here up, once it is searched, is the queue's.
pub const ENTRIES: u32 = 131072;

// The kinds. That a word goes on to the next has a kind of its own, so that a search need not wait for the
// target to be read.
// Kept: numbers, no enum, since a kind is two bits of an element.
pub const KIND_NONE: u32 = 0;

pub const KIND_NEXT: u32 = 1;

pub const KIND_TARGET: u32 = 2;

pub const KIND_BOTH: u32 = 3;

// The entry of a return: no step, and a target that tells it from an invalid word, whose entry is 0.
pub const RETURNS: u32 = 1;

// The entry of word p, whose steps are s.
#[tactic(auto, using(crate::proofs::Entries::says_invalid, crate::proofs::Entries::says_stop, crate::proofs::Entries::says_next, crate::proofs::Entries::says_target, crate::proofs::Entries::says_up, crate::proofs::Entries::says_down))]
pub fn entry_of(s: Successors, p: usize) -> u32
    requires { (p < most_words) × Packs p s }
    ensures { Says result p s }
{
    match s {
        Successors::Invalid => 0,
        Successors::Stop => RETURNS,
        Successors::One(a) if a == p + 1 => KIND_NEXT * TARGETS,
        Successors::One(a) => KIND_TARGET * TARGETS + a as u32,
        Successors::Two(a, b) if a == p + 1 => KIND_BOTH * TARGETS + b as u32,
        Successors::Two(a, _) => KIND_BOTH * TARGETS + a as u32,
    }
}
