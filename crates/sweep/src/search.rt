// Which words are reachable: a search with a queue. A word enters it once at most, so that n elements are
// enough. No word is read: the lengths are settled, the search leaves them searched (packing.rt has the
// bits), and nothing else tells where control goes.
ghost use Rattle.std.specs.Prelude.{◌<◌, length};
ghost use Rattle.sweep.specs.SearchInvariants.{
  Held,
  Marks,
  Reaches,
  VisitAsks,
  Visits,
  FollowAsks,
  Follows,
  PushAsks,
  Pushes,
};

use crate::packing::{ENTRIES, KIND_NEXT, KIND_NONE, KIND_TARGET, TARGETS};

// Word q is marked and put at the queue's end, if it is not marked yet. The new tail.
#[tactic(auto, using(crate::proofs::Entries::pushes_new, crate::specs::SearchInvariants::there))]
fn push(marks: &mut [u8], lengths: &mut [u32], tail: usize, q: usize) -> usize
    requires { PushAsks marks.old lengths.old tail q }
    ensures { Pushes marks.old lengths.old tail q marks.new
        lengths.new result }
{
    if marks[q] == 0 {
        marks[q] = 1;
        lengths[tail] = lengths[tail] % ENTRIES + q as u32 * ENTRIES;
        return tail + 1;
    }
    tail
}

// Where the search goes on: the word in hand, if there is one, and the queue's tail.
#[derive(Drop)]
struct Turn {
    hand: Option<usize>,
    tail: usize,
}

// Word q is marked and taken in hand, if it is not marked yet.
#[tactic(auto, using(crate::specs::SearchInvariants::fresh, crate::specs::SearchInvariants::seen))]
fn reach(marks: &mut [u8], q: usize) -> Option<usize>
    requires { q < length marks.old }
    ensures { Reaches marks.old q marks.new result }
{
    if marks[q] != 0 {
        return None;
    }
    marks[q] = 1;
    Some(q)
}

// Marks the successors of word p. One goes in hand, if it is new. Of two it is the target, and the next word
// goes to the queue's end: a test and arithmetic go on at p + 2, so that what is followed lies on in memory,
// and the jump after a test, which leads anywhere, is one that nobody waits for.
fn visit(marks: &mut [u8], lengths: &mut [u32], p: usize, tail: usize) -> Turn
    requires { VisitAsks marks.old lengths.old p tail }
    ensures { Visits marks.old lengths.old p tail marks.new
        lengths.new result.hand result.tail }
{
    let entry = lengths[p] % ENTRIES;
    let kind = entry / TARGETS;
    if kind == KIND_NEXT {
        let hand = reach(marks, p + 1);
        return Turn { hand, tail };
    }
    if kind == KIND_NONE {
        return Turn { hand: None, tail };
    }
    let target = (entry % TARGETS) as usize;
    if kind == KIND_TARGET {
        let hand = reach(marks, target);
        return Turn { hand, tail };
    }
    let tail = push(marks, lengths, tail, p + 1);
    let hand = reach(marks, target);
    Turn { hand, tail }
}

// Takes the word at the queue's head in hand and follows it, from new word to new word. The new tail. A word
// that is followed need not go through the queue, which would make the next turn wait for the memory.
fn follow(marks: &mut [u8], lengths: &mut [u32], head: usize, tail: usize) -> usize
    requires { FollowAsks marks.old lengths.old head tail }
    ensures { Follows marks.old lengths.old head marks.new
        lengths.new result }
{
    let mut t = Turn {
        hand: Some((lengths[head] / ENTRIES) as usize),
        tail,
    };
    while let Some(p) = t.hand {
        t = visit(marks, lengths, p, t.tail);
    }
    t.tail
}

// The marks of all words, whose settled lengths become searched ones. The entries stay.
pub fn mark_reachable(marks: &mut [u8], lengths: &mut [u32])
    requires { Held marks.old lengths.old }
    ensures { Marks lengths.old marks.new lengths.new }
{
    marks.fill(0);
    let mut tail = push(marks, lengths, 0, 0);
    let mut head = 0;
    // Kept: what is followed puts words at the queue's end, so that no range says where the loop ends.
    while head < tail {
        tail = follow(marks, lengths, head, tail);
        head += 1;
    }
}
