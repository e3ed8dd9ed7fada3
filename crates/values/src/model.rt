// The Rust's model.rs as far as a record speaks of it: a function's tables, and constant values. A string is
// its span in the string bytes.

// The Rust's Prototype, as what document 01 lends of it: the words, the constants' tags and payloads, the
// upvalues' names, and the bytes that strings and names lie in.
#[derive(Clone, Copy)]
pub struct Prototype<'a> {
    pub words: &'a [u32],
    pub tags: &'a [u8],
    pub payloads: &'a [u64],
    pub names: &'a [u64],
    pub bytes: &'a [u8],
}

#[derive(Clone, Copy, Debug, PartialEq, Eq)]
pub struct Span {
    pub start: u32,
    pub len: u32,
}

#[derive(Clone, Copy, Debug, PartialEq)]
pub enum ConstantValue {
    Nil,
    Boolean(bool),
    Integer(i64),
    Float(f64),
    // A float that is not a number: no f64 is made of its bits here, so that they stay as they are.
    NanBits(u64),
    ShortString(Span),
    LongString(Span),
}
