// A function's words.
ghost use Rattle.std.specs.Prelude.{◌≡◌, length};
ghost use Rattle.lundump.specs.Chunk.{counts_of, after, words_of, words_room};
ghost use Rattle.lundump.specs.Search.{located_of};
ghost use Rattle.lines.specs.Choices.{filled_by};

use crate::choosing::{Choice, locate_by};
use chunk::inner::{fill_code, with_room};
use common::Refusal;
use common::limits::{MOST_CONSTANTS, MOST_NAMES};
use lundump::{Counts, Layout, Rooms};

// Where it stands, if there is room for so many words, as if there were room for all of its tags, payloads
// and names.
#[tactic(auto, using(crate::proofs::Passes::filled_is))]
pub(crate) fn located_in(chunk: &[u8], choice: Choice, words: usize) -> Result<Layout, Refusal>
    ensures { result ≡ located_of (filled_by choice chunk.now (words_room words)) }
{
    let rooms = Rooms {
        words,
        tags: MOST_CONSTANTS,
        payloads: MOST_CONSTANTS,
        names: MOST_NAMES,
    };
    with_room(locate_by(chunk, choice), rooms)
}

// As if there were room for all of its tags, payloads and names: only the words are filled.
// Kept: (a) as lawendeb_chunk_words_at answers; `value` speaks of C's counts.
pub fn words_by(chunk: &[u8], choice: Choice, words: &mut [u32]) -> Counts
    ensures value { result ≡ counts_of (filled_by choice chunk.now (words_room (length words.old))) }
    ensures words_after { words.new
        ≡ after words_of (filled_by choice chunk.now (words_room (length words.old)))
        words.old }
{
    let found = located_in(chunk, choice, words.len());
    let Ok(f) = found else {
        return Counts::from(found);
    };
    fill_code(chunk, f.code_at, words);
    Counts::from(found)
}
