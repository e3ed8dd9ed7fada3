// The C interface: a function by its number, as in chunk's, or by the place that
// `lawendeb_chunk_index` gives.
ghost use Rattle.std.specs.Prelude.{◌≡◌, length};
ghost use Rattle.lundump.specs.Chunk.{counts_of, after, words_of, words_room};
ghost use Rattle.lines.specs.declared.choosing.Choice.TheVariants.{Number, Place};
ghost use Rattle.lines.specs.Choices.{filled_by};
ghost use Rattle.lines.specs.Lines.{lines_in};
ghost use Rattle.lines.specs.Heads.{head_told, head_of};
ghost use Rattle.index.specs.Listing.{functions_of, listed_of, listed_in, places_of, parents_of, after_all};

use index::{Listed, count_functions, list_functions};
use lines::{Choice, FlatHead, head_by, lines_by, words_by};
use lundump::Counts;

#[unsafe(no_mangle)]
pub extern "C" fn lawendeb_chunk_lines(chunk: &[u8], k: usize, lines: &mut [u32]) -> Counts
    ensures value { result ≡ counts_of (filled_by (Number k) chunk.now (words_room (length lines.old))) }
    ensures lines_after { lines.new ≡ after (lines_in chunk.now) (filled_by (Number k)
        chunk.now (words_room (length lines.old))) lines.old }
{
    lines_by(chunk, Choice::Number(k), lines)
}

#[unsafe(no_mangle)]
pub extern "C" fn lawendeb_chunk_head(chunk: &[u8], k: usize) -> FlatHead
    ensures { result ≡ head_told (head_of (Number k) chunk.now) }
{
    head_by(chunk, Choice::Number(k))
}

#[unsafe(no_mangle)]
pub extern "C" fn lawendeb_chunk_functions(chunk: &[u8]) -> Listed
    ensures { result ≡ listed_of (functions_of chunk.now) }
{
    count_functions(chunk)
}

#[unsafe(no_mangle)]
pub extern "C" fn lawendeb_chunk_index(
    chunk: &[u8],
    places: &mut [u64],
    parents: &mut [u64],
) -> Listed
    ensures value { result ≡ listed_of (listed_in chunk.now (length places.old)
        (length parents.old)) }
    ensures places_after { places.new ≡ after_all places_of (listed_in chunk.now
        (length places.old) (length parents.old)) places.old }
    ensures parents_after { parents.new ≡ after_all parents_of (listed_in chunk.now
        (length places.old) (length parents.old)) parents.old }
{
    list_functions(chunk, places, parents)
}

#[unsafe(no_mangle)]
pub extern "C" fn lawendeb_chunk_words_at(chunk: &[u8], at: usize, words: &mut [u32]) -> Counts
    ensures value { result ≡ counts_of (filled_by (Place at) chunk.now (words_room (length words.old))) }
    ensures words_after { words.new
        ≡ after words_of (filled_by (Place at) chunk.now (words_room (length words.old)))
        words.old }
{
    words_by(chunk, Choice::Place(at), words)
}

#[unsafe(no_mangle)]
pub extern "C" fn lawendeb_chunk_lines_at(chunk: &[u8], at: usize, lines: &mut [u32]) -> Counts
    ensures value { result ≡ counts_of (filled_by (Place at) chunk.now (words_room (length lines.old))) }
    ensures lines_after { lines.new ≡ after (lines_in chunk.now) (filled_by (Place at)
        chunk.now (words_room (length lines.old))) lines.old }
{
    lines_by(chunk, Choice::Place(at), lines)
}

#[unsafe(no_mangle)]
pub extern "C" fn lawendeb_chunk_head_at(chunk: &[u8], at: usize) -> FlatHead
    ensures { result ≡ head_told (head_of (Place at) chunk.now) }
{
    head_by(chunk, Choice::Place(at))
}
