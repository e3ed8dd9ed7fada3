// The longest run of a function, and its rows: the words that stand together on a line of the source.
ghost use Rattle.std.specs.Prelude.{◌<◌, length};
ghost use Rattle.found.specs.Rows.{RowOfWords};

use crate::way::{Way, ending, going, is_call, is_test};

// A function's words, their lines and lengths, and those of them that make the run. Of what is not there a
// line, a length and a word is 0.
#[derive(Clone, Copy)]
pub struct Run<'a> {
    pub words: &'a [u32],
    pub lines: &'a [u32],
    pub lengths: &'a [u32],
    pub path: &'a [u32],
}

impl Run<'_> {
    // The run's word i, by its number in the function.
    pub fn word(self, i: usize) -> usize {
        self.path.get(i).map_or(0, |p| *p as usize)
    }

    // The line of a word, if it has one.
    pub fn line(self, p: usize) -> Option<u32> {
        self.lines.get(p).copied().filter(|line| *line != 0)
    }

    // How much there is from a word on.
    pub fn length(self, p: usize) -> u32 {
        self.lengths.get(p).copied().unwrap_or(0)
    }

    // What remains of the run from its word i on, 0 behind its last.
    fn remains(self, i: usize) -> u32 {
        self.path.get(i).map_or(0, |p| self.length(*p as usize))
    }

    // What remains behind its word i.
    pub fn remains_behind(self, i: usize) -> u32 {
        self.remains(i.saturating_add(1))
    }

    // How much of the run its words from one to another are, both counted.
    pub fn part(self, from: usize, last: usize) -> u32 {
        self.remains(from).saturating_sub(self.remains_behind(last))
    }

    // Whether the run's word i is its last.
    fn is_last(self, i: usize) -> bool {
        self.path.len() <= i.saturating_add(1)
    }

    // Whether two words of the run stand apart: on different lines, or, where there are no lines, not side by
    // side.
    fn is_apart(self, p: usize, q: usize) -> bool {
        match (self.line(p), self.line(q)) {
            (None, None) => q != p.saturating_add(1),
            (here, there) => here != there,
        }
    }

    // Whether the run's word i is a test and the run goes on with the jump behind it, which belongs to it.
    fn is_joined(self, i: usize) -> bool {
        let p = self.word(i);
        is_test(self.words, p) && self.word(i.saturating_add(1)) == p.saturating_add(1)
    }

    // Whether the run's word i is the jump behind a test.
    fn is_behind(self, i: usize) -> bool {
        i != 0 && self.is_joined(i - 1)
    }

    // How the run goes on from its word i.
    fn way_on(self, i: usize) -> Way {
        let p = self.word(i);
        if self.is_last(i) {
            ending(self.words, p)
        } else {
            going(self.words, p, self.word(i.saturating_add(1)))
        }
    }

    // Whether the run's word i is the last of its row.
    fn ends_row(self, i: usize) -> bool {
        if self.is_last(i) {
            return true;
        }
        if self.is_joined(i) {
            return false;
        }
        if self.is_behind(i) {
            return true;
        }
        match self.way_on(i) {
            Way::Straight => self.is_apart(self.word(i), self.word(i.saturating_add(1))),
            Way::Branch(_) | Way::Turn(_) | Way::Returns | Way::Back(_) => true,
        }
    }

    // The last word of the row that starts at one of the run's words.
    pub fn row_end(self, from: usize) -> usize
        ensures { from < length self.entry.path.now → RowOfWords from (length self.entry.path.now) result }
    {
        let count = self.path.len();
        for i in from..count {
            if self.ends_row(i) {
                return i;
            }
        }
        count.saturating_sub(1)
    }

    // How the run goes on from the last word of a row: of a test and its jump by the test, but where the run
    // ends.
    pub fn way_behind(self, last: usize) -> Way {
        if !self.is_last(last) && self.is_behind(last) {
            self.way_on(last.saturating_sub(1))
        } else {
            self.way_on(last)
        }
    }

    // Whether one of the run's words from one to another, both counted, calls.
    pub fn has_call(self, from: usize, last: usize) -> bool {
        let mut row = self.path.iter().take(last.saturating_add(1)).skip(from);
        row.any(|p| is_call(self.words, *p as usize))
    }
}
