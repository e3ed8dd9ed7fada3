// A file to its end.
use std::io::{Error, Read};

// Why a file is not read.
#[derive(Clone, Copy)]
pub enum Unread {
    // It is longer than the buffer.
    Longer,
    Failed(Error),
}

impl From<Error> for Unread {
    fn from(error: Error) -> Unread {
        Unread::Failed(error)
    }
}

// Whether there is more to read than the buffer took.
fn has_more<R: Read>(file: &mut R) -> bool {
    let mut more = [0u8; 1];
    matches!(file.read(&mut more), Ok(1..))
}

// Reads a file into the buffer: how many bytes it has.
pub fn read_file<R: Read>(file: &mut R, buffer: &mut [u8]) -> Result<usize, Unread> {
    // Kept: (d) a read says itself how far it came, so that no range has the steps; and `input`'s loop, which
    // is of standard input, counts an error as its end, while here the error is told.
    let mut at = 0;
    while at < buffer.len() {
        let n = file.read(&mut buffer[at..])?;
        if n == 0 {
            return Ok(at);
        }
        at += n;
    }
    if has_more(file) {
        return Err(Unread::Longer);
    }
    Ok(at)
}
