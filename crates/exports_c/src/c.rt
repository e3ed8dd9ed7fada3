// For C: words, runs and the lift.
// Each export calls the function of that name in `exports`, and promises the same.
ghost use Rattle.std.specs.Prelude.{◌≡◌, length};
ghost use Rattle.runs.specs.Script.{lua54};
ghost use Rattle.steps.specs.lua54.Successors.{successors_of};
ghost use Rattle.runs.specs.Run.{run_of, marks_after, lengths_after};
ghost use Rattle.runs.specs.Flat.{flat_successors, flat_run};
ghost use Rattle.fields.specs.lua54.Word.{fields_of, opcode_of};
ghost use Rattle.fields.specs.lua54.Table.{mode_number, mode_of};
ghost use Rattle.exports.specs.Flat.{flat_fields, numbers_after, lift_answer};

use common::c::FlatAnswer;
use exports::c::FlatFields;
use runs::c::{FlatRun, FlatSuccessors};

#[unsafe(no_mangle)]
pub extern "C" fn lawendeb_successors(words: &[u32], p: usize) -> FlatSuccessors
    ensures { result ≡ flat_successors (successors_of words.now p) }
{
    exports::c::lawendeb_successors(words, p)
}

#[unsafe(no_mangle)]
pub extern "C" fn lawendeb_longest_run_3(
    words: &[u32],
    weights: &[u8],
    marks: &mut [u8],
    lengths: &mut [u32],
) -> FlatRun
    ensures value { result ≡ flat_run (run_of (lua54 words.now) weights.now
        (length marks.old) (length lengths.old)) }
    ensures marks_after { marks.new ≡ marks_after (lua54 words.now) weights.now
        marks.old lengths.old }
    ensures lengths_after { lengths.new ≡ lengths_after (lua54 words.now) weights.now
        marks.old lengths.old }
{
    exports::c::lawendeb_longest_run_3(words, weights, marks, lengths)
}

#[unsafe(no_mangle)]
pub extern "C" fn lawendeb_decode(word: u32) -> FlatFields
    ensures { result ≡ flat_fields (mode_number (mode_of (opcode_of word))) (fields_of word) }
{
    exports::c::lawendeb_decode(word)
}

// Lifts a whole function: all records are written or, where it is refused, none.
#[unsafe(no_mangle)]
pub extern "C" fn lawendeb_lift<'a, 'b>(
    words: &'a [u32],
    tags: &'a [u8],
    payloads: &'a [u64],
    names: &'a [u64],
    bytes: &'a [u8],
    numbers: &'b mut [u64],
) -> FlatAnswer
    ensures value { result ≡ lift_answer words.now tags.now payloads.now
        names.now (length bytes.now) numbers.old }
    ensures numbers_after { numbers.new ≡ numbers_after words.now tags.now
        payloads.now names.now (length bytes.now) numbers.old }
{
    exports::c::lawendeb_lift(words, tags, payloads, names, bytes, numbers)
}
