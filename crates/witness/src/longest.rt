// The longest run with the words that make it.
ghost use Rattle.std.specs.Prelude.{◌≡◌, length};
ghost use Rattle.runs.specs.Script.{script_of};
ghost use Rattle.witness.specs.Witness.{path_run_of, marks_witnessed, lengths_witnessed, path_witnessed};
ghost use Rattle.witness.specs.Walking.{run_within, kept};
ghost use Rattle.runs.specs.Run.{marks_after, lengths_after};

use crate::walking::walk;
use common::Refusal;
use common::sizes::check_room;
use fields::version::Version;
use runs::Longest;

// The run, and how many words its path has.
#[derive(Clone, Copy, Debug, PartialEq, Eq)]
pub struct PathRun {
    pub run: Longest,
    pub count: usize,
}

// The run of words for whose path there is so much room, or the first refusal that applies.
// The marks and the lengths get what the run leaves.
fn run_within(
    version: Version,
    words: &[u32],
    weights: &[u8],
    marks: &mut [u8],
    lengths: &mut [u32],
    room: usize,
) -> Result<Longest, Refusal>
    ensures value { result ≡ run_within (script_of version words.now) weights.now
        (length marks.old) (length lengths.old) room }
    ensures marks_after { marks.new ≡ kept (script_of version words.now) room marks.old
        (marks_after (script_of version words.now) weights.now marks.old
        lengths.old) }
    ensures lengths_after { lengths.new ≡ kept (script_of version words.now) room lengths.old
        (lengths_after (script_of version words.now) weights.now marks.old
        lengths.old) }
{
    check_room(words.len(), room)?;
    runs::longest_run(version, words, weights, marks, lengths)
}

// The longest run, the lowest word at which it begins, and in `path` the words of one longest stretch
// from there on, as many as `count` says. Or the first refusal that applies. The marks and the
// lengths get what the run leaves.
pub fn longest_path(
    version: Version,
    words: &[u32],
    weights: &[u8],
    marks: &mut [u8],
    lengths: &mut [u32],
    path: &mut [u32],
) -> Result<PathRun, Refusal>
    ensures value { result ≡ path_run_of (script_of version words.now) weights.now
        (length marks.old) (length lengths.old) (length path.old) }
    ensures marks_after { marks.new ≡ marks_witnessed (script_of version words.now) weights.now
        marks.old lengths.old path.old }
    ensures lengths_after { lengths.new ≡ lengths_witnessed (script_of version words.now) weights.now
        marks.old lengths.old path.old }
    ensures path_after { path.new ≡ path_witnessed (script_of version words.now) weights.now
        marks.old lengths.old path.old }
{
    let run = run_within(version, words, weights, marks, lengths, path.len())?;
    let count = walk(version, words, lengths, run.first, path);
    Ok(PathRun { run, count })
}
