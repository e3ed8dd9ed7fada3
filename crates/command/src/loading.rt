// The files that the arguments name, to their end.
use crate::asking::argument;
use crate::reading::{Unread, read_file};
use std::env::Env;
use std::fs::{File, Files};
use std::io::{Error, ErrorKind};
use weight_file::BadLine;

// Why a weights file is not read.
#[derive(Clone, Copy)]
pub enum NoWeights {
    BadLine(BadLine),
    // It is longer than 64 KiB, or can't be read.
    Unread(Unread),
}

impl From<Error> for NoWeights {
    fn from(error: Error) -> NoWeights {
        NoWeights::Unread(Unread::Failed(error))
    }
}

impl From<Unread> for NoWeights {
    fn from(unread: Unread) -> NoWeights {
        NoWeights::Unread(unread)
    }
}

impl From<BadLine> for NoWeights {
    fn from(line: BadLine) -> NoWeights {
        NoWeights::BadLine(line)
    }
}

// The file that argument i names. Its name has to be UTF-8, as the paths of std are.
fn open<R: Env + Files>(rt: &R, i: usize) -> Result<R::File, Error> {
    let mut name = io::buffer();
    let n = argument(rt, i, &mut name);
    match std::str::from_utf8(&name[..n]) {
        Ok(path) => File::open(rt, path),
        Err(_) => Err(Error::from(ErrorKind::InvalidFilename)),
    }
}

// The weights in the file that argument i names.
pub fn load_weights<R: Env + Files>(rt: &R, i: usize, weights: &mut [u8]) -> Result<(), NoWeights> {
    let mut file = open(rt, i)?;
    let mut text = io::large_buffer();
    let n = read_file(&mut file, &mut text)?;
    weight_file::read_weights(&text[..n.min(text.len())], weights)?;
    Ok(())
}

// The bytes of the script that argument i names: how many there are.
pub fn load_script<R: Env + Files>(rt: &R, i: usize, bytes: &mut [u8]) -> Result<usize, Unread> {
    let mut file = open(rt, i)?;
    read_file(&mut file, bytes)
}
