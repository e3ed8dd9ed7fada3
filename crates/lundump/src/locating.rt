// The whole chunk: its header, its main function, and the function that is looked for.
ghost use Rattle.std.specs.Prelude.{◌≡◌};
ghost use Rattle.loaders.specs.Reading.{past_of};
ghost use Rattle.lundump.specs.Lundump.{check_bytes, check_header};
ghost use Rattle.lundump.specs.Chunk.{chosen};
ghost use Rattle.lundump.specs.Search.{located_of, located_by};

use crate::functions::{Layout, Search, function};
use common::Refusal;
use common::limits::{LEVELS_BELOW, MOST_BYTES};
use loaders::Read;
use loaders::inner::byte;

const HEADER: [u8; 31] = [
    27, 76, 117, 97, 84, 0, 25, 147, 13, 10, 26, 10, 4, 8, 8, 120, 86, 0, 0, 0, 0, 0, 0, 0, 0, 0,
    0, 0, 40, 119, 64,
];

// The first bytes are these, tried one by one.
#[tactic(auto, using(crate::proofs::Whole::same))]
fn literal(chunk: &[u8], expected: &[u8]) -> Result<usize, Refusal>
    ensures { result ≡ past_of (check_bytes expected.now chunk.now 0) }
{
    for (i, &h) in expected.iter().enumerate() {
        let (b, _) = byte(chunk, i)?;
        if b != h {
            return Err(Refusal::HeaderDiffers);
        }
    }
    Ok(expected.len())
}

// checkHeader
#[tactic(auto, unfolding(crate::specs::Lundump::check_header))]
pub fn header(chunk: &[u8]) -> Result<usize, Refusal>
    ensures { result ≡ past_of (check_header chunk.now 0) }
{
    literal(chunk, &HEADER)
}

// The function that a walk over all of them found.
pub fn located(walk: Read<Search>) -> Result<Layout, Refusal>
    ensures { result ≡ located_by walk }
{
    let (s, _) = walk?;
    s.or(Err(Refusal::MalformedChunk))
}

// Function k, counted from 0 by first byte: where its parts stand and how many it has of each.
#[tactic(auto, using(crate::proofs::Whole::chosen_by))]
pub fn locate(chunk: &[u8], k: usize) -> Result<Layout, Refusal>
    ensures { result ≡ located_of (chosen k chunk.now) }
{
    if MOST_BYTES < chunk.len() {
        return Err(Refusal::MalformedChunk);
    }
    let at = header(chunk)?;
    let (_, main_at) = byte(chunk, at)?;
    located(function(chunk, main_at, LEVELS_BELOW, Err(k)))
}
