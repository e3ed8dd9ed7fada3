// The C interface.
ghost use Rattle.std.specs.Prelude.{◌≡◌, length};
ghost use Rattle.runs.specs.Script.{lua54};
ghost use Rattle.ranges.specs.Range.{runs_of, marks_after_both, lengths_after_both};
ghost use Rattle.ranges.specs.Flat.{flat_range};

use crate::LongestRange;
use common::Refusal;
use fields::version::Version;

// As C gets both reports; crate `lua53` answers it too.
#[repr(C)]
#[derive(Drop)]
pub struct FlatRange {
    pub number: u64,
    pub place: u64,
    pub low_longest: u64,
    pub low_first: u64,
    pub high_longest: u64,
    pub high_first: u64,
}

impl From<Result<LongestRange, Refusal>> for FlatRange {
    ghost from_gives = { λ runs flat. flat ≡ flat_range runs };

    fn from(runs: Result<LongestRange, Refusal>) -> FlatRange {
        match runs {
            Ok(LongestRange { low, high }) => FlatRange {
                number: 0,
                place: 0,
                low_longest: u64::from(low.longest),
                low_first: low.first as u64,
                high_longest: u64::from(high.longest),
                high_first: high.first as u64,
            },
            Err(refusal) => FlatRange {
                number: u64::from(refusal.number()),
                place: refusal.place() as u64,
                low_longest: 0,
                low_first: 0,
                high_longest: 0,
                high_first: 0,
            },
        }
    }
}

pub fn lawendeb_longest_runs(
    words: &[u32],
    low: &[u8],
    high: &[u8],
    marks: &mut [u8],
    lengths: &mut [u32],
) -> FlatRange
    ensures value { result ≡ flat_range (runs_of (lua54 words.now) low.now high.now
        (length marks.old) (length lengths.old)) }
    ensures marks_after { marks.new ≡ marks_after_both (lua54 words.now) low.now
        high.now marks.old lengths.old }
    ensures lengths_after { lengths.new ≡ lengths_after_both (lua54 words.now) low.now
        high.now marks.old lengths.old }
{
    FlatRange::from(crate::longest_runs(Version::Lua54, words, low, high, marks, lengths))
}
