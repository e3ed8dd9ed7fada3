// A file that is refused: the only line.
use pages::Page;
use std::fmt;
use std::fmt::Write;
use wording::{Number, Refused, Why, put_name};

fn put_which(page: &mut Page, file: &[u8]) -> fmt::Result {
    page.put(b"refused: ")?;
    put_name(page, file)?;
    page.put(b": ")
}

pub fn put_refused(page: &mut Page, file: &[u8], refused: Refused) -> fmt::Result {
    put_which(page, file)?;
    write!(page, "{}{}\n", Why(refused), Number(refused.refusal))
}

// A file that is longer than the room for it.
pub fn put_too_long(page: &mut Page, file: &[u8]) -> fmt::Result {
    put_which(page, file)?;
    page.put(b"longer than 4 MiB (15)\n")
}
