// What refuses words before one is read, by sizes alone.
ghost use Rattle.std.specs.Prelude.{◌≡◌};
ghost use Rattle.common.specs.Chain.{room_answer, sizes_answer};

use crate::limits::MOST_WORDS;
use crate::refusal::Refusal;

// Numbers 1 and 6, in this order: of n words, where the shortest lent result slice has so much room.
#[tactic(auto, unfolding(crate::specs::Chain::room_answer))]
pub fn check_room(n: usize, room: usize) -> Result<(), Refusal>
    ensures { result ≡ room_answer n room }
{
    if MOST_WORDS < n {
        return Err(Refusal::TooManyWords);
    }
    if room < n {
        return Err(Refusal::ShortSlice);
    }
    Ok(())
}

// The same, and 7 after them.
#[tactic(auto, unfolding(crate::specs::Chain::room_answer, crate::specs::Chain::sizes_answer))]
pub fn check_sizes(n: usize, room: usize) -> Result<(), Refusal>
    ensures { result ≡ sizes_answer n room }
{
    check_room(n, room)?;
    if n == 0 {
        return Err(Refusal::NoWords);
    }
    Ok(())
}
