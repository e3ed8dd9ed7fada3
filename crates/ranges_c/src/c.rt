// For C: runs by two tables of weights.
// Each export calls the function of that name in `ranges`, and promises the same.
ghost use Rattle.std.specs.Prelude.{◌≡◌, length};
ghost use Rattle.runs.specs.Script.{lua54};
ghost use Rattle.ranges.specs.Range.{runs_of, marks_after_both, lengths_after_both};
ghost use Rattle.ranges.specs.Flat.{flat_range};

use ranges::c::FlatRange;

#[unsafe(no_mangle)]
pub extern "C" fn lawendeb_longest_runs(
    words: &[u32],
    low: &[u8],
    high: &[u8],
    marks: &mut [u8],
    lengths: &mut [u32],
) -> FlatRange
    ensures value { result ≡ flat_range (runs_of (lua54 words.now) low.now high.now
        (length marks.old) (length lengths.old)) }
    ensures marks_after { marks.new ≡ marks_after_both (lua54 words.now) low.now
        high.now marks.old lengths.old }
    ensures lengths_after { lengths.new ≡ lengths_after_both (lua54 words.now) low.now
        high.now marks.old lengths.old }
{
    ranges::c::lawendeb_longest_runs(words, low, high, marks, lengths)
}
