// A function of a compiled script, as it is told.
use common::Refusal;

// The longest run without a service, the word at which it starts, and how many words it has.
#[derive(Clone, Copy)]
pub struct Longest {
    pub longest: u64,
    pub start: usize,
    pub count: usize,
}

#[derive(Clone, Copy)]
pub struct Function {
    // Counted from 0 by first byte; the one that it stands in, which means nothing of the main function, 0.
    pub k: u64,
    pub parent: u64,
    pub words: usize,
    // The lines of its source, both 0 for the main function.
    // Kept: (a) JSON prints both as the file has them; an Option loses a first line beside a last of 0.
    pub first_line: u64,
    pub last_line: u64,
    pub parameters: u64,
    // Of a function that is refused no run is told.
    pub run: Result<Longest, Refusal>,
}
