// The distance to service of a word: "the fewest words to the next serving step or return,
// counting the word itself".
ghost use Rattle.std.specs.Prelude.{◌≡◌, length};
ghost use Rattle.runs.specs.Script.{script_of};
ghost use Rattle.sweep.specs.Entries.{entries, graph_in};
ghost use Rattle.sweep.specs.SearchInvariants.{Lent};
ghost use Rattle.sweep.specs.PassInvariants.{FillAsks};
ghost use Rattle.runs.specs.Outcome.{decided, Decided};
ghost use Rattle.runs.specs.Run.{marks_after, lengths_after};
ghost use Rattle.runs.specs.Counted.{ones};
ghost use Rattle.service.specs.Questions.{nearest_by, nearest_of};
ghost use Rattle.service.specs.Pass.{fewest_in};

use crate::pass::note_distances;
use crate::unit::unit_run;
use common::Refusal;
use common::sizes::check_sizes;
use fields::version::Version;
use runs::inner::search_words;
use sweep::inner::ENTRIES;

// The fewest words from word w, none of an unreachable word or one past the end, by the entries and the marks
// that the search leaves. The entries stay.
fn find_fewest(w: usize, marks: &[u8], lengths: &mut [u32]) -> Option<u32>
    requires { FillAsks marks.now lengths.old }
    ensures value { result ≡ fewest_in (graph_in (entries lengths.old)) w }
    ensures lengths_unchanged { entries lengths.new ≡ entries lengths.old }
{
    if marks.len() <= w || marks[w] != 1 {
        return None;
    }
    note_distances(w, lengths);
    Some(lengths[w] / ENTRIES + 1)
}

// The answer for words that pass the checks of their number and of the slices. The distance is found between
// the search and the lengths, where the entries are, so that the run need be made only once.
fn nearest_of_words(
    version: Version,
    words: &[u32],
    w: usize,
    marks: &mut [u8],
    lengths: &mut [u32],
) -> Result<Option<u32>, Refusal>
    requires { Lent (length words.now) marks.old lengths.old }
    ensures value { result ≡ nearest_by (decided (script_of version words.now) ones)
        (script_of version words.now) w }
    ensures decided { Decided (script_of version words.now) ones
        (decided (script_of version words.now) ones) marks.new lengths.new }
{
    search_words(version, words, marks, lengths);
    let fewest = find_fewest(w, marks, lengths);
    unit_run(version, words, marks, lengths)?;
    Ok(fewest)
}

// The fewest words from word w, if it has one, or the run's refusal with all weights 1. The slices get what
// that run leaves.
pub fn distance_to_service(
    version: Version,
    words: &[u32],
    w: usize,
    marks: &mut [u8],
    lengths: &mut [u32],
) -> Result<Option<u32>, Refusal>
    ensures value { result ≡ nearest_of (script_of version words.now) w (length marks.old)
        (length lengths.old) }
    ensures marks_after { marks.new ≡ marks_after (script_of version words.now) ones
        marks.old lengths.old }
    ensures lengths_after { lengths.new ≡ lengths_after (script_of version words.now) ones
        marks.old lengths.old }
{
    let n = words.len();
    check_sizes(n, marks.len().min(lengths.len()))?;
    nearest_of_words(version, words, w, &mut marks[..n], &mut lengths[..n])
}
