// A function of a compiled script, as it is told. Nothing else here calls the libraries of compiled files,
// of the path and of registers.
use crate::key::Key;
use crate::rooms::Rooms;
use common::Refusal;
use common::limits::MOST_WORDS;
use fields::version::Version;
use found::{Function, Longest};
use lines::{Choice, FlatHead};
use witness::PathRun;

// As a head tells that a function has no source of its own.
const NO_SOURCE: u64 = 18446744073709551615;

// 2^32: a name's place is its start and so many times its length.
const SPAN: u64 = 4294967296;

// A compiled script's bytes, what its opcodes weigh, and where its functions stand.
#[derive(Clone, Copy)]
pub struct Script<'a> {
    pub bytes: &'a [u8],
    pub weights: &'a [u8],
    pub places: &'a [u64],
}

fn longest_of(run: Result<PathRun, Refusal>) -> Result<Longest, Refusal> {
    let PathRun { run, count } = run?;
    Ok(Longest {
        longest: u64::from(run.longest),
        start: run.first,
        count,
    })
}

// The function of a key, of n words, by its head and its run.
fn function(key: Key, head: FlatHead, n: usize, run: Result<Longest, Refusal>) -> Function {
    Function {
        k: key.number(),
        parent: key.parent(),
        words: n,
        first_line: head.linedefined,
        last_line: head.lastlinedefined,
        parameters: head.numparams,
        run,
    }
}

// The same function, refused where some way reads a register that nothing has set. The marks are used.
fn checked(f: Function, rooms: &mut Rooms) -> Function {
    if f.run.is_err() {
        return f;
    }
    let words = &rooms.words[..f.words.min(MOST_WORDS)];
    match assignment::definite_assignment(words, (f.parameters % 256) as u8, &mut rooms.marks) {
        Ok(()) => f,
        Err(refusal) => Function {
            run: Err(refusal),
            ..f
        },
    }
}

impl<'a> Script<'a> {
    fn place_of(self, k: u64) -> usize {
        self.places.get(k as usize).map_or(0, |at| *at as usize)
    }

    // The name of the source, as the main function's head gives it, if it has one.
    pub fn source(self) -> Option<&'a [u8]> {
        let head = lines::head_from(self.bytes, self.place_of(0));
        if head.source == NO_SOURCE {
            return None;
        }
        let rest = self.bytes.get((head.source % SPAN) as usize..)?;
        let name = &rest[..rest.len().min((head.source / SPAN) as usize)];
        Some(name).filter(|name| !name.is_empty())
    }

    // The function of a key: its words, and the longest run of them with the words that make it.
    fn measured(self, key: Key, rooms: &mut Rooms) -> Function {
        let at = self.place_of(key.number());
        let head = lines::head_from(self.bytes, at);
        let counts = lines::words_by(self.bytes, Choice::Place(at), &mut rooms.words);
        let n = (counts.words as usize).min(MOST_WORDS);
        let run = witness::longest_path(
            Version::Lua54,
            &rooms.words[..n],
            self.weights,
            &mut rooms.marks,
            &mut rooms.lengths,
            &mut rooms.path,
        );
        function(key, head, n, longest_of(run))
    }

    // The function of a key, all of it.
    pub fn load(self, key: Key, rooms: &mut Rooms) -> Function {
        let at = self.place_of(key.number());
        lines::lines_by(self.bytes, Choice::Place(at), &mut rooms.lines);
        let f = self.measured(key, rooms);
        if key.is_refused() {
            checked(f, rooms)
        } else {
            f
        }
    }

    // The function of a key that is not refused, without its words: what a line of its own tells.
    pub fn brief(self, key: Key) -> Function {
        let head = lines::head_from(self.bytes, self.place_of(key.number()));
        let run = Longest {
            longest: key.longest(),
            start: 0,
            count: 0,
        };
        function(key, head, 0, Ok(run))
    }

    // A key for each function, the greatest first, where the numbers of those that they stand in were.
    pub fn order_all(self, keys: &mut [u64], rooms: &mut Rooms) {
        for (k, key) in keys.iter_mut().enumerate() {
            let own = Key::new(0, k as u64, *key, false);
            let f = checked(self.measured(own, rooms), rooms);
            let longest = f.run.map_or(0, |run| run.longest);
            *key = Key::new(longest, f.k, f.parent, f.run.is_err()).0;
        }
        keys.sort_unstable_by(|a, b| b.cmp(a));
    }
}
