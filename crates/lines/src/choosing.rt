// A function of a chunk, chosen by its number or by its place.
ghost use Rattle.std.specs.Prelude.{◌≡◌};
ghost use Rattle.lundump.specs.Search.{located_of};
ghost use Rattle.lines.specs.Choices.{function_at, chosen_by};

use common::Refusal;
use common::limits::{LEVELS_BELOW, MOST_BYTES};
use lundump::Layout;
use lundump::inner::{function, locate, located};

#[derive(Clone, Copy)]
pub enum Choice {
    // Counted from 0 by first byte.
    Number(usize),
    // Where its first byte stands.
    Place(usize),
}

// The function whose first byte stands there: none but its own bytes are read, and those
// of the functions within it.
#[tactic(auto, using(crate::proofs::Places::place_too_long, crate::proofs::Places::place_there))]
fn locate_at(chunk: &[u8], at: usize) -> Result<Layout, Refusal>
    ensures { result ≡ located_of (function_at at chunk.now) }
{
    if MOST_BYTES < chunk.len() {
        return Err(Refusal::MalformedChunk);
    }
    located(function(chunk, at, LEVELS_BELOW, Err(0)))
}

pub(crate) fn locate_by(chunk: &[u8], choice: Choice) -> Result<Layout, Refusal>
    ensures { result ≡ located_of (chosen_by choice chunk.now) }
{
    match choice {
        Choice::Number(k) => locate(chunk, k),
        Choice::Place(at) => locate_at(chunk, at),
    }
}
