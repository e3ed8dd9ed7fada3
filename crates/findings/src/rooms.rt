// Room for what is computed of a function's words. It lies on the stack.
use common::limits::MOST_WORDS;
use found::Run;

#[derive(Drop)]
pub struct Rooms {
    pub(crate) words: [u32; MOST_WORDS],
    pub(crate) lines: [u32; MOST_WORDS],
    pub(crate) marks: [u8; MOST_WORDS],
    pub(crate) lengths: [u32; MOST_WORDS],
    pub(crate) path: [u32; MOST_WORDS],
}

impl Rooms {
    pub fn new() -> Rooms {
        Rooms {
            words: [0; MOST_WORDS],
            lines: [0; MOST_WORDS],
            marks: [0; MOST_WORDS],
            lengths: [0; MOST_WORDS],
            path: [0; MOST_WORDS],
        }
    }

    // What was computed of a function of n words, whose run has so many of them.
    pub fn run(&self, n: usize, count: usize) -> Run {
        Run {
            words: &self.words[..n.min(MOST_WORDS)],
            lines: &self.lines[..n.min(MOST_WORDS)],
            lengths: &self.lengths[..n.min(MOST_WORDS)],
            path: &self.path[..count.min(MOST_WORDS)],
        }
    }
}
