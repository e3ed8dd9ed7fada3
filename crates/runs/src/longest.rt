// The longest run without a service.
ghost use Rattle.std.specs.Prelude.{◌≡◌, length};
ghost use Rattle.runs.specs.Run.{run_of, marks_after, lengths_after};
ghost use Rattle.sweep.specs.SearchInvariants.{Lent};
ghost use Rattle.runs.specs.Script.{script_of};
ghost use Rattle.runs.specs.Outcome.{Searched, Decided};
ghost use Rattle.runs.specs.Weights.{weight_count};

use crate::script::{settle_script, slot_mask};
use crate::weighing::check_weights;
use common::Refusal;
use common::sizes::check_room;
use fields::version::Version;
use sweep::inner::{clear_lengths, fill_lengths, find_first, find_longest, mark_reachable};

// L, and the lowest word at which such a segment begins.
#[derive(Clone, Copy, Debug, PartialEq, Eq)]
pub struct Longest {
    pub longest: u32,
    pub first: usize,
}

// The entries of the words, in the lengths, which end searched, and the marks.
pub fn search_words(version: Version, words: &[u32], marks: &mut [u8], lengths: &mut [u32])
    requires { Lent (length words.now) marks.old lengths.old }
    ensures { Searched (script_of version words.now) marks.new lengths.new }
{
    settle_script(version, words, lengths);
    mark_reachable(marks, lengths);
}

// The run by a table of weights, of words that are searched: their lengths, measured, take
// the place of their entries.
pub fn measure_run(
    version: Version,
    words: &[u32],
    weights: &[u8],
    marks: &[u8],
    lengths: &mut [u32],
) -> Result<Longest, Refusal>
    requires { Searched (script_of version words.now) marks.now lengths.old
        × (length weights.now ≡ weight_count) }
    ensures { Decided (script_of version words.now) weights.now result
        marks.now lengths.new }
{
    let n = words.len();
    let invalid = fill_lengths(slot_mask(version), words, weights, marks, lengths);
    if let Some(place) = invalid {
        clear_lengths(lengths, n);
        return Err(Refusal::ReachesInvalid(place));
    }
    let longest = find_longest(lengths, n);
    let first = find_first(lengths, n, longest);
    Ok(Longest { longest, first })
}

// The run of words that pass the checks of their number and of the slices.
fn run_of_words(
    version: Version,
    words: &[u32],
    weights: &[u8],
    marks: &mut [u8],
    lengths: &mut [u32],
) -> Result<Longest, Refusal>
    requires { Lent (length words.now) marks.old lengths.old
        × (length weights.now ≡ weight_count) }
    ensures { Decided (script_of version words.now) weights.now result
        marks.new lengths.new }
{
    search_words(version, words, marks, lengths);
    measure_run(version, words, weights, marks, lengths)
}

// The longest run and the lowest word at which it begins, or the first refusal that applies. The slices get,
// for each word, whether it is reachable, and the most that a segment which starts there weighs.
pub fn longest_run(
    version: Version,
    words: &[u32],
    weights: &[u8],
    marks: &mut [u8],
    lengths: &mut [u32],
) -> Result<Longest, Refusal>
    ensures value { result ≡ run_of (script_of version words.now) weights.now
        (length marks.old) (length lengths.old) }
    ensures marks_after { marks.new ≡ marks_after (script_of version words.now)
        weights.now marks.old lengths.old }
    ensures lengths_after { lengths.new ≡ lengths_after (script_of version words.now)
        weights.now marks.old lengths.old }
{
    let n = words.len();
    check_room(n, marks.len().min(lengths.len()))?;
    check_weights(weights)?;
    if n == 0 {
        return Err(Refusal::NoWords);
    }
    run_of_words(version, words, weights, &mut marks[..n], &mut lengths[..n])
}
