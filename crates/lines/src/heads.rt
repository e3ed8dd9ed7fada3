// What loadFunction reads ahead of a function's parts: its source, lines, parameters and stack size.
ghost use Rattle.std.specs.Prelude.{◌≡◌};
ghost use Rattle.loaders.specs.Lent.{BytesBounded};
ghost use Rattle.lines.specs.Heads.{
  read_head,
  read_numbers,
  head_lent,
  flat_head,
  head_told,
  head_of,
  head_from,
};

use crate::choosing::{Choice, locate_by};
use common::Refusal;
use common::limits::MOST_BYTES;
use common::numbers::ACCEPTED;
use loaders::Read;
use loaders::inner::{byte, int, name_at};

// A refusal's number and place; or the source's place as a name's is told, and the numbers of the head.
#[repr(C)]
#[derive(Drop)]
pub struct FlatHead {
    pub number: u64,
    pub place: u64,
    pub source: u64,
    pub linedefined: u64,
    pub lastlinedefined: u64,
    pub numparams: u64,
    pub is_vararg: u64,
    pub maxstacksize: u64,
}

// The numbers of a head.
#[derive(Clone, Copy)]
pub struct Numbers {
    pub linedefined: usize,
    pub lastlinedefined: usize,
    pub numparams: u8,
    pub is_vararg: u8,
    pub maxstacksize: u8,
}

// A head that was read: its source's place as a name's is told, and its numbers.
#[derive(Clone, Copy)]
pub struct HeadRead {
    pub source: u64,
    pub numbers: Numbers,
}

impl From<Result<HeadRead, Refusal>> for FlatHead {
    ghost from_gives = { λ head flat. flat ≡ flat_head head };

    fn from(head: Result<HeadRead, Refusal>) -> FlatHead {
        match head {
            Ok(HeadRead { source, numbers }) => FlatHead {
                number: u64::from(ACCEPTED),
                place: 0,
                source,
                linedefined: numbers.linedefined as u64,
                lastlinedefined: numbers.lastlinedefined as u64,
                numparams: u64::from(numbers.numparams),
                is_vararg: u64::from(numbers.is_vararg),
                maxstacksize: u64::from(numbers.maxstacksize),
            },
            Err(refusal) => FlatHead {
                number: u64::from(refusal.number()),
                place: refusal.place() as u64,
                source: 0,
                linedefined: 0,
                lastlinedefined: 0,
                numparams: 0,
                is_vararg: 0,
                maxstacksize: 0,
            },
        }
    }
}

// The numbers behind the source.
#[tactic(auto, unfolding(crate::specs::Heads::read_numbers))]
fn read_numbers(chunk: &[u8], at: usize) -> Read<Numbers>
    ensures { result ≡ read_numbers chunk.now at }
{
    let (linedefined, at) = int(chunk, at)?;
    let (lastlinedefined, at) = int(chunk, at)?;
    let (numparams, at) = byte(chunk, at)?;
    let (is_vararg, at) = byte(chunk, at)?;
    let (maxstacksize, at) = byte(chunk, at)?;
    let numbers = Numbers {
        linedefined,
        lastlinedefined,
        numparams,
        is_vararg,
        maxstacksize,
    };
    Ok((numbers, at))
}

// The head at a position.
#[tactic(auto, using(crate::proofs::HeadsRead::no_source, crate::proofs::HeadsRead::no_numbers, crate::proofs::HeadsRead::both))]
fn head_at(chunk: &[u8], at: usize) -> Result<HeadRead, Refusal>
    requires { BytesBounded chunk.now }
    ensures { result ≡ head_lent (read_head chunk.now at) }
{
    let (source, past) = name_at(chunk, at)?;
    let (numbers, _) = read_numbers(chunk, past)?;
    Ok(HeadRead { source, numbers })
}

#[tactic(auto, using(crate::proofs::HeadsRead::too_long, crate::proofs::HeadsRead::alone))]
fn head_alone(chunk: &[u8], at: usize) -> Result<HeadRead, Refusal>
    ensures { result ≡ head_lent (head_from at chunk.now) }
{
    if MOST_BYTES < chunk.len() {
        return Err(Refusal::MalformedChunk);
    }
    head_at(chunk, at)
}

#[tactic(auto, using(crate::proofs::HeadsRead::not_there, crate::proofs::HeadsRead::there, crate::proofs::HeadsRead::within_bytes))]
fn head_chosen(chunk: &[u8], choice: Choice) -> Result<HeadRead, Refusal>
    ensures { result ≡ head_lent (head_of choice chunk.now) }
{
    let f = locate_by(chunk, choice)?;
    head_at(chunk, f.first_at)
}

// Of the function whose first byte stands there: nothing behind its head is read.
// Kept: (a) as head_by, whose clause and its own speak of C's numbers.
pub fn head_from(chunk: &[u8], at: usize) -> FlatHead
    ensures { result ≡ head_told (head_from at chunk.now) }
{
    FlatHead::from(head_alone(chunk, at))
}

// Of the chosen function.
// Kept: (a) as lawendeb_chunk_head and lawendeb_chunk_head_at answer; the clause speaks of C's numbers.
pub fn head_by(chunk: &[u8], choice: Choice) -> FlatHead
    ensures { result ≡ head_told (head_of choice chunk.now) }
{
    FlatHead::from(head_chosen(chunk, choice))
}
