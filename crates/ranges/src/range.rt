// The longest run by a lowest and by a highest weight for every opcode (request C-18).
ghost use Rattle.std.specs.Prelude.{◌≡◌, length};
ghost use Rattle.std.specs.List.{position, zip};
ghost use Rattle.runs.specs.Weights.{weight_count};
ghost use Rattle.runs.specs.Script.{script_of};
ghost use Rattle.sweep.specs.SearchInvariants.{Lent};
ghost use Rattle.ranges.specs.Range.{exceeds, range_answer, refuses_range, runs_of};
ghost use Rattle.ranges.specs.Range.{marks_after_both, lengths_after_both};
ghost use Rattle.runs.specs.Outcome.{Searched};
ghost use Rattle.ranges.specs.Outcome.{DecidedBoth};

use common::Refusal;
use common::sizes::check_room;
use fields::version::Version;
use runs::Longest;
use runs::inner::{search_words, slot_mask};
use runs::weighing::{WEIGHTS, check_weights};
use sweep::inner::{clear_lengths, find_first, find_longest};
use twice::inner::fill_twice;

// Both reports.
#[derive(Clone, Copy, Debug, PartialEq, Eq)]
pub struct LongestRange {
    pub low: Longest,
    pub high: Longest,
}

// Whether 18 or 19 refuses two tables of 128 weights: a low weight is 0 or above its high one. Where none is,
// no high weight is 0 either, so that one look at both is enough. It looks at all of them, so that the
// compiler takes many at a time.
fn has_refused(low: &[u8], high: &[u8]) -> bool
    requires { (length low.now ≡ weight_count) × (length high.now ≡ weight_count) }
    ensures { result ≡ refuses_range low.now high.now }
{
    let mut refused = false;
    for (i, weight) in low.iter().enumerate() {
        refused |= (*weight == 0) | (*weight > high[i]);
    }
    refused
}

// Whether 18 or 19 refuses the tables.
fn refuses_range(low: &[u8], high: &[u8]) -> bool
    ensures { result ≡ refuses_range low.now high.now }
{
    if low.len() != WEIGHTS || high.len() != WEIGHTS {
        return true;
    }
    has_refused(low, high)
}

// The lowest opcode whose low weight is above its high one.
fn lowest_above(low: &[u8], high: &[u8]) -> Option<usize>
    ensures { result ≡ position exceeds (zip low.now high.now) }
{
    low.iter().zip(high).position(|(low, high)| high < low)
}

// Numbers 18, of the low table and of the high one, and 19. Which of them it is, is asked of refused tables
// alone.
fn check_range(low: &[u8], high: &[u8]) -> Result<(), Refusal>
    ensures { result ≡ range_answer low.now high.now }
{
    if !refuses_range(low, high) {
        return Ok(());
    }
    check_weights(low)?;
    check_weights(high)?;
    match lowest_above(low, high) {
        Some(place) => Err(Refusal::LowAboveHigh(place)),
        None => Ok(()),
    }
}

// The runs by two tables, of words that are searched: their lengths by the high one, measured, take the place
// of their entries.
fn measure_runs(
    version: Version,
    words: &[u32],
    low: &[u8],
    high: &[u8],
    marks: &mut [u8],
    lengths: &mut [u32],
) -> Result<LongestRange, Refusal>
    requires { Searched (script_of version words.now) marks.old lengths.old
        × ((length low.now ≡ weight_count) × (length high.now ≡ weight_count)) }
    ensures { DecidedBoth (script_of version words.now) low.now
        high.now result marks.new lengths.new }
{
    let n = words.len();
    let lows = fill_twice(slot_mask(version), words, low, high, marks, lengths);
    if let Some(place) = lows.invalid {
        clear_lengths(lengths, n);
        return Err(Refusal::ReachesInvalid(place));
    }
    let longest = find_longest(lengths, n);
    let first = find_first(lengths, n, longest);
    Ok(LongestRange {
        low: Longest {
            longest: lows.longest,
            first: lows.first,
        },
        high: Longest { longest, first },
    })
}

// The runs of words that pass the checks of their number, of the slices and of the tables. What is reachable
// does not depend on weights, so that one search is enough, and its entries serve both tables.
fn runs_of_words(
    version: Version,
    words: &[u32],
    low: &[u8],
    high: &[u8],
    marks: &mut [u8],
    lengths: &mut [u32],
) -> Result<LongestRange, Refusal>
    requires { Lent (length words.now) marks.old lengths.old
        × ((length low.now ≡ weight_count) × (length high.now ≡ weight_count)) }
    ensures { DecidedBoth (script_of version words.now) low.now
        high.now result marks.new lengths.new }
{
    search_words(version, words, marks, lengths);
    measure_runs(version, words, low, high, marks, lengths)
}

// The longest run by the low table and by the high one, each with the lowest word at which it begins, or the
// first refusal that applies. The slices end as the high table's run leaves them.
pub fn longest_runs(
    version: Version,
    words: &[u32],
    low: &[u8],
    high: &[u8],
    marks: &mut [u8],
    lengths: &mut [u32],
) -> Result<LongestRange, Refusal>
    ensures value { result ≡ runs_of (script_of version words.now) low.now high.now
        (length marks.old) (length lengths.old) }
    ensures marks_after { marks.new ≡ marks_after_both (script_of version words.now)
        low.now high.now marks.old lengths.old }
    ensures lengths_after { lengths.new ≡ lengths_after_both (script_of version words.now)
        low.now high.now marks.old lengths.old }
{
    let n = words.len();
    check_room(n, marks.len().min(lengths.len()))?;
    check_range(low, high)?;
    if n == 0 {
        return Err(Refusal::NoWords);
    }
    runs_of_words(
        version,
        words,
        low,
        high,
        &mut marks[..n],
        &mut lengths[..n],
    )
}
