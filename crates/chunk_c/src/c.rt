// The C interface: answers as structs of numbers, since an exported function may give no enum.
ghost use Rattle.std.specs.Prelude.{◌≡◌, length};
ghost use Rattle.lundump.specs.Chunk.{
  chosen,
  counts_of,
  filled,
  rooms_of,
  after,
  words_of,
  tags_of,
  payloads_of,
  names_of,
};
ghost use Rattle.chunk.specs.Names.{shown_of};

use chunk::{Shown, count_function, fill_function, shown_name};
use lundump::Counts;

// Of function k, counted from 0 by first byte. Nothing is filled.
#[unsafe(no_mangle)]
pub extern "C" fn lawendeb_chunk_count(chunk: &[u8], k: usize) -> Counts
    ensures { result ≡ counts_of (chosen k chunk.now) }
{
    count_function(chunk, k)
}

// Of function k, counted from 0 by first byte. What lies past the counts stays as it was,
// and all of it on a refusal.
#[unsafe(no_mangle)]
pub extern "C" fn lawendeb_chunk_fill(
    chunk: &[u8],
    k: usize,
    words: &mut [u32],
    tags: &mut [u8],
    payloads: &mut [u64],
    names: &mut [u64],
) -> Counts
    ensures value { result ≡ counts_of (filled k chunk.now
        (rooms_of words.old tags.old payloads.old names.old)) }
    ensures words_after { words.new ≡ after words_of (filled k chunk.now
        (rooms_of words.old tags.old payloads.old names.old))
        words.old }
    ensures tags_after { tags.new ≡ after tags_of (filled k chunk.now
        (rooms_of words.old tags.old payloads.old names.old))
        tags.old }
    ensures payloads_after { payloads.new ≡ after payloads_of (filled k chunk.now
        (rooms_of words.old tags.old payloads.old names.old))
        payloads.old }
    ensures names_after { names.new ≡ after names_of (filled k chunk.now
        (rooms_of words.old tags.old payloads.old names.old))
        names.old }
{
    fill_function(chunk, k, words, tags, payloads, names)
}

// What is shown for upvalue `index`: own are the chunk's places, other the list's.
#[unsafe(no_mangle)]
pub extern "C" fn lawendeb_upvalue_name(
    chunk: &[u8],
    own: &[u64],
    list: &[u8],
    other: &[u64],
    index: usize,
) -> Shown
    ensures { result ≡ shown_of (length chunk.now) own.now (length list.now)
        other.now index }
{
    shown_name(chunk, own, list, other, index)
}
