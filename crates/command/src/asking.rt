// What the arguments ask for.
ghost use Rattle.io.specs.Counts.{IsPrefixLen};

use std::env::{Env, FillError};

// What is told of a script, and how. The arguments by number: the file with the weights, the name that the
// script is told by, and the script.
#[derive(Clone, Copy)]
pub struct Asked {
    pub limit: Option<u64>,
    pub is_json: bool,
    pub weights: Option<usize>,
    pub name: Option<usize>,
    pub file: usize,
}

impl Asked {
    // The argument that has the script's name: its own where no other is asked for.
    pub fn named(self) -> usize {
        self.name.unwrap_or(self.file)
    }
}

// What is told instead.
#[derive(Clone, Copy)]
pub enum Instead {
    Usage,
    Version,
    // An argument that is not understood.
    Unclear(usize),
}

// An option whose value is the next argument.
#[derive(Clone, Copy)]
enum Valued {
    Limit,
    Weights,
    Name,
}

// What the arguments so far ask for.
#[derive(Clone, Copy)]
struct Reading {
    awaits: Option<Valued>,
    limit: Option<u64>,
    is_json: bool,
    weights: Option<usize>,
    name: Option<usize>,
    file: Option<usize>,
}

// The largest limit.
const MOST_LIMIT: u64 = 1000000000000000009;

// The number that digits show.
fn limit_in(text: &[u8]) -> Option<u64> {
    let digits = std::str::from_utf8(text).ok()?;
    if digits.starts_with('+') {
        return None;
    }
    digits.parse::<u64>().ok().filter(|n| *n <= MOST_LIMIT)
}

impl Reading {
    // With argument i as the value that is awaited.
    fn with_value(self, valued: Valued, text: &[u8], i: usize) -> Result<Reading, Instead> {
        let now = Reading {
            awaits: None,
            ..self
        };
        match valued {
            Valued::Limit => Ok(Reading {
                limit: Some(limit_in(text).ok_or(Instead::Unclear(i))?),
                ..now
            }),
            Valued::Weights => Ok(Reading {
                weights: Some(i),
                ..now
            }),
            Valued::Name => Ok(Reading {
                name: Some(i),
                ..now
            }),
        }
    }

    fn awaiting(self, valued: Valued) -> Reading {
        Reading {
            awaits: Some(valued),
            ..self
        }
    }

    // With argument i as an option, or a file, of which a second is not understood.
    fn with_option(self, text: &[u8], i: usize) -> Result<Reading, Instead> {
        match text {
            b"--limit" => Ok(self.awaiting(Valued::Limit)),
            b"--weights" => Ok(self.awaiting(Valued::Weights)),
            b"--name" => Ok(self.awaiting(Valued::Name)),
            b"--json" => Ok(Reading {
                is_json: true,
                ..self
            }),
            b"--help" => Err(Instead::Usage),
            b"--version" => Err(Instead::Version),
            [b'-', b'-', ..] => Err(Instead::Unclear(i)),
            _ if self.file.is_some() => Err(Instead::Unclear(i)),
            _ => Ok(Reading {
                file: Some(i),
                ..self
            }),
        }
    }

    fn with_argument(self, text: &[u8], i: usize) -> Result<Reading, Instead> {
        match self.awaits {
            Some(valued) => self.with_value(valued, text, i),
            None => self.with_option(text, i),
        }
    }

    // An option without its value, and no file, show how the program is used.
    fn complete(self) -> Result<Asked, Instead> {
        let (Some(file), None) = (self.file, self.awaits) else {
            return Err(Instead::Usage);
        };
        Ok(Asked {
            limit: self.limit,
            is_json: self.is_json,
            weights: self.weights,
            name: self.name,
            file,
        })
    }
}

// All arguments in turn, up to the first that asks for something else. One that is longer than the buffer
// counts as empty.
pub fn read_all(env: &impl Env) -> Result<Asked, Instead> {
    let mut reading = Reading {
        awaits: None,
        limit: None,
        is_json: false,
        weights: None,
        name: None,
        file: None,
    };
    let mut buffer = io::buffer();
    for i in 1..usize::MAX {
        reading = match env.arg(i, &mut buffer) {
            Ok(n) => reading.with_argument(&buffer[..n], i)?,
            Err(FillError::TooLong) => reading.with_argument(b"", i)?,
            Err(FillError::NotPresent) => break,
        };
    }
    reading.complete()
}

// Puts argument i at the start of the buffer. How long it is; 0 where it is missing or longer than the
// buffer.
pub fn argument(env: &impl Env, i: usize, buffer: &mut [u8]) -> usize
    ensures { IsPrefixLen result buffer.new }
{
    env.arg(i, buffer).unwrap_or(0)
}
