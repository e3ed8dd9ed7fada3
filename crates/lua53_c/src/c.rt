// For C: scripts of Lua 5.3.
// Each export calls the function of that name in `lua53`, and promises the same.
ghost use Rattle.std.specs.Prelude.{◌≡◌, length};
ghost use Rattle.fields.specs.lua53.Word.{fields_of, opcode_of};
ghost use Rattle.fields.specs.lua53.Table.{mode_number, mode_of};
ghost use Rattle.lua53.specs.Flat.{flat_fields};
ghost use Rattle.fields.specs.declared.version.Version.TheVariants.{Lua53};
ghost use Rattle.runs.specs.Script.{script_of};
ghost use Rattle.runs.specs.Run.{run_of, marks_after, lengths_after};
ghost use Rattle.runs.specs.Flat.{flat_successors, flat_run};
ghost use Rattle.ranges.specs.Range.{runs_of, marks_after_both, lengths_after_both};
ghost use Rattle.ranges.specs.Flat.{flat_range};
ghost use Rattle.runs.specs.Counted.{ones};
ghost use Rattle.service.specs.Questions.{nearest_of, crossed_of, within_of};
ghost use Rattle.service.specs.Questions.{marks_within, lengths_within, list_within};
ghost use Rattle.common.specs.Flat.{flat_result};
ghost use Rattle.service.specs.Flat.{flat_nearest, flat_crossed};
ghost use Rattle.touches.specs.Touches.{touches_for};

use common::c::FlatAnswer;
use lua53::c::FlatFields;
use ranges::c::FlatRange;
use runs::c::{FlatRun, FlatSuccessors};
use service::c::{FlatCrossed, FlatNearest};
use touches::Touches;

#[unsafe(no_mangle)]
pub extern "C" fn lawendeb_decode_53(word: u32) -> FlatFields
    ensures { result ≡ flat_fields (mode_number (mode_of (opcode_of word))) (fields_of word) }
{
    lua53::c::lawendeb_decode_53(word)
}

#[unsafe(no_mangle)]
pub extern "C" fn lawendeb_successors_53(words: &[u32], p: usize) -> FlatSuccessors
    ensures { result ≡ flat_successors ((script_of Lua53 words.now).steps p) }
{
    lua53::c::lawendeb_successors_53(words, p)
}

#[unsafe(no_mangle)]
pub extern "C" fn lawendeb_longest_run_53(
    words: &[u32],
    weights: &[u8],
    marks: &mut [u8],
    lengths: &mut [u32],
) -> FlatRun
    ensures value { result ≡ flat_run (run_of (script_of Lua53 words.now) weights.now
        (length marks.old) (length lengths.old)) }
    ensures marks_after { marks.new ≡ marks_after (script_of Lua53 words.now)
        weights.now marks.old lengths.old }
    ensures lengths_after { lengths.new ≡ lengths_after (script_of Lua53 words.now)
        weights.now marks.old lengths.old }
{
    lua53::c::lawendeb_longest_run_53(words, weights, marks, lengths)
}

#[unsafe(no_mangle)]
pub extern "C" fn lawendeb_longest_runs_53(
    words: &[u32],
    low: &[u8],
    high: &[u8],
    marks: &mut [u8],
    lengths: &mut [u32],
) -> FlatRange
    ensures value { result ≡ flat_range (runs_of (script_of Lua53 words.now) low.now
        high.now (length marks.old) (length lengths.old)) }
    ensures marks_after { marks.new ≡ marks_after_both (script_of Lua53 words.now)
        low.now high.now marks.old lengths.old }
    ensures lengths_after { lengths.new ≡ lengths_after_both (script_of Lua53 words.now)
        low.now high.now marks.old lengths.old }
{
    lua53::c::lawendeb_longest_runs_53(words, low, high, marks, lengths)
}

#[unsafe(no_mangle)]
pub extern "C" fn lawendeb_distance_to_service_53(
    words: &[u32],
    w: usize,
    marks: &mut [u8],
    lengths: &mut [u32],
) -> FlatNearest
    ensures value { result ≡ flat_nearest (nearest_of (script_of Lua53 words.now) w
        (length marks.old) (length lengths.old)) }
    ensures marks_after { marks.new ≡ marks_after (script_of Lua53 words.now) ones
        marks.old lengths.old }
    ensures lengths_after { lengths.new ≡ lengths_after (script_of Lua53 words.now) ones
        marks.old lengths.old }
{
    lua53::c::lawendeb_distance_to_service_53(words, w, marks, lengths)
}

#[unsafe(no_mangle)]
pub extern "C" fn lawendeb_list_within_53(
    words: &[u32],
    d: usize,
    marks: &mut [u8],
    lengths: &mut [u32],
    list: &mut [u8],
) -> FlatAnswer
    ensures value { result ≡ flat_result (within_of (script_of Lua53 words.now)
        (length marks.old) (length lengths.old) (length list.old)) }
    ensures marks_after { marks.new ≡ marks_within (script_of Lua53 words.now)
        marks.old lengths.old list.old }
    ensures lengths_after { lengths.new ≡ lengths_within (script_of Lua53 words.now)
        marks.old lengths.old list.old }
    ensures list_after { list.new ≡ list_within (script_of Lua53 words.now) d
        marks.old lengths.old list.old }
{
    lua53::c::lawendeb_list_within_53(words, d, marks, lengths, list)
}

#[unsafe(no_mangle)]
pub extern "C" fn lawendeb_crossing_edges_53(
    words: &[u32],
    w: usize,
    marks: &mut [u8],
    lengths: &mut [u32],
) -> FlatCrossed
    ensures value { result ≡ flat_crossed (crossed_of (script_of Lua53 words.now) w
        (length marks.old) (length lengths.old)) }
    ensures marks_after { marks.new ≡ marks_after (script_of Lua53 words.now) ones
        marks.old lengths.old }
    ensures lengths_after { lengths.new ≡ lengths_after (script_of Lua53 words.now) ones
        marks.old lengths.old }
{
    lua53::c::lawendeb_crossing_edges_53(words, w, marks, lengths)
}

#[unsafe(no_mangle)]
pub extern "C" fn lawendeb_touches_53(words: &[u32], p: usize) -> Touches
    ensures { result ≡ touches_for Lua53 words.now p }
{
    lua53::c::lawendeb_touches_53(words, p)
}
