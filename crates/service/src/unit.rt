// The run in which every word counts 1.
ghost use Rattle.runs.specs.Script.{script_of};
ghost use Rattle.runs.specs.Outcome.{Searched, Decided};
ghost use Rattle.runs.specs.Counted.{ones};

use common::Refusal;
use fields::version::Version;
use runs::Longest;
use runs::inner::measure_run;
use runs::weighing::WEIGHTS;

// The run of words that are searched: their lengths take the place of their entries.
pub(crate) fn unit_run(
    version: Version,
    words: &[u32],
    marks: &[u8],
    lengths: &mut [u32],
) -> Result<Longest, Refusal>
    requires { Searched (script_of version words.now) marks.now lengths.old }
    ensures { Decided (script_of version words.now) ones result marks.now lengths.new }
{
    let weights = [1u8; WEIGHTS];
    measure_run(version, words, &weights, marks, lengths)
}
