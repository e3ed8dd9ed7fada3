// For C: the three questions of `service`.
// Each export calls the function of that name in `service`, and promises the same.
ghost use Rattle.std.specs.Prelude.{◌≡◌, length};
ghost use Rattle.runs.specs.Script.{lua54};
ghost use Rattle.runs.specs.Run.{marks_after, lengths_after};
ghost use Rattle.runs.specs.Counted.{ones};
ghost use Rattle.service.specs.Questions.{nearest_of, crossed_of, within_of};
ghost use Rattle.service.specs.Questions.{marks_within, lengths_within, list_within};
ghost use Rattle.common.specs.Flat.{flat_result};
ghost use Rattle.service.specs.Flat.{flat_nearest, flat_crossed};

use common::c::FlatAnswer;
use service::c::{FlatCrossed, FlatNearest};

#[unsafe(no_mangle)]
pub extern "C" fn lawendeb_distance_to_service(
    words: &[u32],
    w: usize,
    marks: &mut [u8],
    lengths: &mut [u32],
) -> FlatNearest
    ensures value { result ≡ flat_nearest (nearest_of (lua54 words.now) w (length marks.old)
        (length lengths.old)) }
    ensures marks_after { marks.new
        ≡ marks_after (lua54 words.now) ones marks.old lengths.old }
    ensures lengths_after { lengths.new
        ≡ lengths_after (lua54 words.now) ones marks.old lengths.old }
{
    service::c::lawendeb_distance_to_service(words, w, marks, lengths)
}

#[unsafe(no_mangle)]
pub extern "C" fn lawendeb_list_within(
    words: &[u32],
    d: usize,
    marks: &mut [u8],
    lengths: &mut [u32],
    list: &mut [u8],
) -> FlatAnswer
    ensures value { result ≡ flat_result (within_of (lua54 words.now) (length marks.old)
        (length lengths.old) (length list.old)) }
    ensures marks_after { marks.new ≡ marks_within (lua54 words.now) marks.old
        lengths.old list.old }
    ensures lengths_after { lengths.new ≡ lengths_within (lua54 words.now) marks.old
        lengths.old list.old }
    ensures list_after { list.new ≡ list_within (lua54 words.now) d marks.old
        lengths.old list.old }
{
    service::c::lawendeb_list_within(words, d, marks, lengths, list)
}

#[unsafe(no_mangle)]
pub extern "C" fn lawendeb_crossing_edges(
    words: &[u32],
    w: usize,
    marks: &mut [u8],
    lengths: &mut [u32],
) -> FlatCrossed
    ensures value { result ≡ flat_crossed (crossed_of (lua54 words.now) w (length marks.old)
        (length lengths.old)) }
    ensures marks_after { marks.new
        ≡ marks_after (lua54 words.now) ones marks.old lengths.old }
    ensures lengths_after { lengths.new
        ≡ lengths_after (lua54 words.now) ones marks.old lengths.old }
{
    service::c::lawendeb_crossing_edges(words, w, marks, lengths)
}
