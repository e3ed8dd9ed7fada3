// "For a word w, count the steps from reachable words that pass strictly over w, forward or back":
// the crossing edges of a word.
ghost use Rattle.std.specs.Prelude.{◌≡◌, cond, length};
ghost use Rattle.graph.specs.Crossing.{crosses, crossing_of};
ghost use Rattle.runs.specs.Script.{script_of};
ghost use Rattle.sweep.specs.Entries.{entry_at, entries, graph_in};
ghost use Rattle.sweep.specs.SearchInvariants.{Lent};
ghost use Rattle.sweep.specs.PassInvariants.{FillAsks};
ghost use Rattle.runs.specs.Outcome.{decided, Decided};
ghost use Rattle.runs.specs.Run.{marks_after, lengths_after};
ghost use Rattle.runs.specs.Counted.{ones};
ghost use Rattle.service.specs.Questions.{crossed_by, crossed_of};
ghost use Rattle.service.specs.Pass.{CrossesFrom};

use crate::unit::unit_run;
use common::Refusal;
use common::sizes::check_sizes;
use fields::version::Version;
use runs::inner::search_words;
use sweep::inner::{ENTRIES, KIND_TARGET, TARGETS};

// 1 if the edge from p to q passes over w.
fn edge_crosses(w: usize, p: usize, q: usize) -> usize
    ensures { result ≡ cond (crosses w p q) 1 0 }
{
    (p < w && w < q || q < w && w < p) as usize
}

// How many edges from word p, which has this entry, pass over w, if it is marked. No word lies between p and
// the next one: only a target counts.
fn crossings_from(w: usize, p: usize, mark: u8, entry: u32) -> usize
    ensures { CrossesFrom w p mark (entry_at entry p) result }
{
    if mark != 1 || entry / TARGETS < KIND_TARGET {
        return 0;
    }
    edge_crosses(w, p, (entry % TARGETS) as usize)
}

// How many edges from marked words pass over w.
fn count_crossings(w: usize, marks: &[u8], lengths: &[u32]) -> usize
    requires { FillAsks marks.now lengths.now }
    ensures { result ≡ crossing_of (graph_in (entries lengths.now)) w }
{
    let mut count: usize = 0;
    for (p, length) in lengths.iter().enumerate() {
        count += crossings_from(w, p, marks[p], *length % ENTRIES);
    }
    count
}

// The answer for words that pass the checks of their number and of the slices. The edges are counted between
// the search and the lengths, where the entries are.
fn crossed_of_words(
    version: Version,
    words: &[u32],
    w: usize,
    marks: &mut [u8],
    lengths: &mut [u32],
) -> Result<usize, Refusal>
    requires { Lent (length words.now) marks.old lengths.old }
    ensures value { result ≡ crossed_by (decided (script_of version words.now) ones)
        (script_of version words.now) w }
    ensures decided { Decided (script_of version words.now) ones
        (decided (script_of version words.now) ones) marks.new lengths.new }
{
    search_words(version, words, marks, lengths);
    let count = count_crossings(w, marks, lengths);
    unit_run(version, words, marks, lengths)?;
    Ok(count)
}

// How many edges from reachable words pass over w, or the run's refusal with all weights 1.
// The slices get what that run leaves.
pub fn crossing_edges(
    version: Version,
    words: &[u32],
    w: usize,
    marks: &mut [u8],
    lengths: &mut [u32],
) -> Result<usize, Refusal>
    ensures value { result ≡ crossed_of (script_of version words.now) w (length marks.old)
        (length lengths.old) }
    ensures marks_after { marks.new ≡ marks_after (script_of version words.now) ones
        marks.old lengths.old }
    ensures lengths_after { lengths.new ≡ lengths_after (script_of version words.now) ones
        marks.old lengths.old }
{
    let n = words.len();
    check_sizes(n, marks.len().min(lengths.len()))?;
    crossed_of_words(version, words, w, &mut marks[..n], &mut lengths[..n])
}
