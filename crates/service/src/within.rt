// "list which reachable words have one within d words".
ghost use Rattle.std.specs.Prelude.{◌≡◌, ◌≤◌, min, length};
ghost use Rattle.common.specs.Lists.{tabulate, over};
ghost use Rattle.runs.specs.Script.{script_of};
ghost use Rattle.sweep.specs.Entries.{entries};
ghost use Rattle.sweep.specs.SearchInvariants.{Lent};
ghost use Rattle.sweep.specs.PassInvariants.{FillAsks};
ghost use Rattle.runs.specs.Outcome.{decided, Decided};
ghost use Rattle.runs.specs.Counted.{ones};
ghost use Rattle.service.specs.Questions.{
  answer_by,
  list_by,
  within_of,
  marks_within,
  lengths_within,
  list_within,
};
ghost use Rattle.service.specs.Pairs.{
  distance_in,
  paired_length,
  listed_by,
  answer_in,
  lengths_in,
  list_in,
};

use crate::pairs::{LENGTHS, pair_words};
use common::Refusal;
use common::sizes::check_sizes;
use fields::version::Version;
use runs::inner::search_words;
use sweep::inner::clear_lengths;

// No pair holds a larger distance.
const FARTHEST: u32 = 65535;

// d in 32 bits: where it is larger than any distance, FARTHEST lists the same words. The compiler then takes
// more of them at a time.
fn shorten(d: usize) -> u32
    ensures { result ≡ min d 65535 }
{
    d.min(FARTHEST as usize) as u32
}

// What is listed of a word by its distance. An unreachable one has 0.
fn listed(d: u32, distance: u32) -> u8
    ensures { result ≡ listed_by d distance }
{
    (distance != 0 && distance <= d) as u8
}

// Takes the pairs apart: lists the words whose distance is at most d, and leaves the lengths.
fn write_list(d: u32, lengths: &mut [u32], list: &mut [u8])
    requires { length lengths.old ≤ length list.old }
    ensures lengths_after { lengths.new
        ≡ tabulate (paired_length lengths.old) 0 (length lengths.old) }
    ensures list_after { list.new ≡ over (λ p. listed_by d (distance_in lengths.old p))
        (length lengths.old) list.old }
{
    for (p, pair) in lengths.iter_mut().enumerate() {
        list[p] = listed(d, *pair / LENGTHS);
        *pair %= LENGTHS;
    }
}

// The list, the lengths and the answer, by the entries and the marks that the search leaves. How long the
// longest run is, and where it begins, is not asked.
fn list_searched(
    d: usize,
    marks: &[u8],
    lengths: &mut [u32],
    list: &mut [u8],
) -> Result<(), Refusal>
    requires { FillAsks marks.now lengths.old × (length lengths.old ≤ length list.old) }
    ensures value { result ≡ answer_in (entries lengths.old) }
    ensures lengths_after { lengths.new ≡ lengths_in (entries lengths.old) }
    ensures list_after { list.new ≡ list_in d (entries lengths.old) list.old }
{
    if let Some(invalid) = pair_words(marks, lengths) {
        clear_lengths(lengths, lengths.len());
        return Err(Refusal::ReachesInvalid(invalid));
    }
    write_list(shorten(d), lengths, list);
    Ok(())
}

// The list and the answer for words that pass the checks of their number and of the slices.
fn list_of_words(
    version: Version,
    words: &[u32],
    d: usize,
    marks: &mut [u8],
    lengths: &mut [u32],
    list: &mut [u8],
) -> Result<(), Refusal>
    requires { Lent (length words.now) marks.old lengths.old
        × (length words.now ≤ length list.old) }
    ensures value { result ≡ answer_by (decided (script_of version words.now) ones) }
    ensures decided { Decided (script_of version words.now) ones
        (decided (script_of version words.now) ones) marks.new lengths.new }
    ensures list_after { list.new ≡ list_by (decided (script_of version words.now) ones)
        (script_of version words.now) d list.old }
{
    search_words(version, words, marks, lengths);
    list_searched(d, marks, lengths, list)
}

// Which reachable words have a service or return within d words: 1 for a listed word, else 0.
// The slices get what the run with all weights 1 leaves.
pub fn list_within(
    version: Version,
    words: &[u32],
    d: usize,
    marks: &mut [u8],
    lengths: &mut [u32],
    list: &mut [u8],
) -> Result<(), Refusal>
    ensures value { result ≡ within_of (script_of version words.now) (length marks.old)
        (length lengths.old) (length list.old) }
    ensures marks_after { marks.new ≡ marks_within (script_of version words.now)
        marks.old lengths.old list.old }
    ensures lengths_after { lengths.new ≡ lengths_within (script_of version words.now)
        marks.old lengths.old list.old }
    ensures list_after { list.new ≡ list_within (script_of version words.now) d
        marks.old lengths.old list.old }
{
    let n = words.len();
    check_sizes(n, list.len().min(marks.len().min(lengths.len())))?;
    list_of_words(version, words, d, &mut marks[..n], &mut lengths[..n], list)
}
