// Whether a chunk that is refused by 15 ends early, for a program that says it in words.
ghost use Rattle.std.specs.Prelude.{◌≡◌, ◌-◌, length, replicate};
ghost use Rattle.common.specs.Lists.{put};
ghost use Rattle.index.specs.Early.{reads_on, filler, ends_early};

use crate::listing::take_tally;
use common::Refusal;

// A count of 1, or a string of no bytes.
const FILLER: u8 = 129;

// A room has so many bytes, and behind them others.
#[tactic(auto, unfolding(common::specs::Lists::put))]
fn put_behind(room: &mut [u8], n: usize)
    ensures { room.new ≡ put room.old n
        (replicate (length room.old - n) filler) }
{
    if n <= room.len() {
        room[n..].fill(FILLER);
    }
}

#[tactic(auto, unfolding(crate::specs::Early::reads_on))]
fn goes_on(chunk: &[u8]) -> bool
    ensures { result ≡ reads_on chunk.now }
{
    take_tally(chunk) != Err(Refusal::MalformedChunk)
}

// Whether the first n bytes of a room, which are refused by 15, are so because they end early: with
// others behind them they are not. The rest of the room is used.
#[tactic(auto, unfolding(crate::specs::Early::ends_early))]
pub fn ends_early(room: &mut [u8], n: usize) -> bool
    ensures value { result ≡ ends_early room.old n }
    ensures room_after { room.new ≡ put room.old n
        (replicate (length room.old - n) filler) }
{
    put_behind(room, n);
    goes_on(room)
}
