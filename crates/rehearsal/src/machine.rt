// What a rehearsal is made of: a script in the ready queue, what becomes of a word, what a turn comes
// to, and the running numbers.
ghost use Rattle.std.specs.Prelude.{◌≡◌};
ghost use Rattle.rehearsal.specs.Running.{ran_of};

pub use crate::queue::Queue;
use common::limits::MOST_SCRIPTS;

// A script that has not returned, and the word it is at.
#[derive(Clone, Copy)]
pub struct Task {
    pub script: usize,
    pub word: usize,
}

// What becomes of a word.
#[derive(Drop)]
pub enum Move {
    // It has no step: the script returns.
    Return,
    // It needs a choice, and none is left.
    Starve,
    // It runs, and leads to a word, with so many choices used up.
    Go(usize, usize),
}

// What a turn comes to, of which so many words ran.
#[derive(Clone, Copy)]
pub enum Turn {
    // It is over: the script is at a word, with so many choices used up.
    Over(u32, usize, usize),
    // The script returned, with so many choices used up.
    Returned(u32, usize),
    // The next word needs a choice, and none is left.
    Starved(u32),
}

impl Turn {
    pub fn ran(self) -> u32
        ensures { result ≡ ran_of self }
    {
        match self {
            Turn::Over(ran, _, _) | Turn::Returned(ran, _) | Turn::Starved(ran) => ran,
        }
    }
}

// The running numbers of a script: the words that were left when its last turn ended, if it had one; and its
// longest wait. A wait is then the difference of two numbers of words left, so that a turn touches its own
// script's numbers only.
#[derive(Clone, Copy)]
pub struct Tally {
    pub ended: Option<u32>,
    pub longest: u32,
}

// A rehearsal between two turns. It is over when no words are left.
#[derive(Drop)]
pub struct Stage {
    pub queue: Queue,
    pub tallies: [Tally; MOST_SCRIPTS],
    pub left: u32,
    pub taken: usize,
}
