// Names and places in a line of text.
use found::Run;
use pages::Page;
use std::fmt;
use std::fmt::{Display, Formatter};

// A byte of a name. One that would not show, or would do something to a terminal, is a question mark.
fn shown(b: u8) -> u8 {
    match b {
        0..=31 | 127 => b'?',
        _ => b,
    }
}

// A name, byte by byte.
// Kept: (a) its bytes need not be UTF-8, and go out as they are: a Display writes text alone.
pub fn put_name(page: &mut Page, name: &[u8]) -> fmt::Result {
    for b in name {
        page.put(&[shown(*b)])?;
    }
    Ok(())
}

// The name in a source: a file's is marked by an @ before it, a name of the host's by =. Any other source is
// the script's own text.
pub fn name_in(source: &[u8]) -> Option<&[u8]> {
    match source {
        [b'@' | b'=', name @ ..] => Some(name),
        _ => None,
    }
}

// Where word p of a run's function stands: its line, or its number where it has none.
#[derive(Drop)]
pub struct Place<'a>(pub Run<'a>, pub usize);

impl Display for Place<'_> {
    fn fmt<W: fmt::Write>(&self, f: &mut Formatter<W>) -> fmt::Result {
        let p = self.1;
        match self.0.line(p) {
            Some(line) => write!(f, "line {line}"),
            None => write!(f, "word {p}"),
        }
    }
}
