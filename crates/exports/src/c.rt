// The C interface: answers as structs of numbers, since an exported function may give no enum.
ghost use Rattle.std.specs.Prelude.{◌≡◌, length};
ghost use Rattle.runs.specs.Script.{lua54};
ghost use Rattle.steps.specs.lua54.Successors.{successors_of};
ghost use Rattle.runs.specs.Run.{run_of, marks_after, lengths_after};
ghost use Rattle.runs.specs.Flat.{flat_successors, flat_run};
ghost use Rattle.fields.specs.lua54.Word.{fields_of, opcode_of};
ghost use Rattle.fields.specs.lua54.Table.{mode_number, mode_of};
ghost use Rattle.exports.specs.Flat.{flat_fields, numbers_after, lift_answer};

use common::c::FlatAnswer;
use fields::lua54::lookup::mode;
use fields::lua54::word::decode;
use fields::version::Version;
use lifted::inner::{RECORD_LENGTH, put_records};
use runs::c::{FlatRun, FlatSuccessors};
use tables::refusals::check;
use values::model::Prototype;

pub fn lawendeb_successors(words: &[u32], p: usize) -> FlatSuccessors
    ensures { result ≡ flat_successors (successors_of words.now p) }
{
    FlatSuccessors::from(steps::lua54::successors::successors(words, p))
}

pub fn lawendeb_longest_run_3(
    words: &[u32],
    weights: &[u8],
    marks: &mut [u8],
    lengths: &mut [u32],
) -> FlatRun
    ensures value { result ≡ flat_run (run_of (lua54 words.now) weights.now
        (length marks.old) (length lengths.old)) }
    ensures marks_after { marks.new ≡ marks_after (lua54 words.now) weights.now
        marks.old lengths.old }
    ensures lengths_after { lengths.new ≡ lengths_after (lua54 words.now) weights.now
        marks.old lengths.old }
{
    FlatRun::from(runs::longest_run(Version::Lua54, words, weights, marks, lengths))
}

#[repr(C)]
#[derive(Drop)]
pub struct FlatFields {
    pub mode: u32,
    pub opcode: u32,
    pub a: u32,
    pub k: u32,
    pub b: u32,
    pub c: u32,
    pub bx: u32,
    pub ax: u32,
    pub sb: i32,
    pub sc: i32,
    pub sbx: i32,
    pub sj: i32,
}

impl From<u32> for FlatFields {
    ghost from_gives = { λ word flat. flat
        ≡ flat_fields (mode_number (mode_of (opcode_of word))) (fields_of word) };

    fn from(word: u32) -> FlatFields {
        let f = decode(word);
        FlatFields {
            mode: u32::from(mode(word)),
            opcode: u32::from(f.opcode_num),
            a: u32::from(f.a),
            k: u32::from(f.k),
            b: u32::from(f.b),
            c: u32::from(f.c),
            bx: f.bx,
            ax: f.ax,
            sb: f.sb,
            sc: f.sc,
            sbx: f.sbx,
            sj: f.sj,
        }
    }
}

pub fn lawendeb_decode(word: u32) -> FlatFields
    ensures { result ≡ flat_fields (mode_number (mode_of (opcode_of word))) (fields_of word) }
{
    FlatFields::from(word)
}

// Lifts a whole function: all records are written or, where it is refused, none.
// Kept: slices where the lifter has a Prototype, since C lends them so (include/lawendeb.h).
pub fn lawendeb_lift<'a, 'b>(
    words: &'a [u32],
    tags: &'a [u8],
    payloads: &'a [u64],
    names: &'a [u64],
    bytes: &'a [u8],
    numbers: &'b mut [u64],
) -> FlatAnswer
    ensures value { result ≡ lift_answer words.now tags.now payloads.now
        names.now (length bytes.now) numbers.old }
    ensures numbers_after { numbers.new ≡ numbers_after words.now tags.now
        payloads.now names.now (length bytes.now) numbers.old }
{
    let proto = Prototype {
        words,
        tags,
        payloads,
        names,
        bytes,
    };
    let answer = check(&proto, numbers.len() / RECORD_LENGTH);
    if answer.is_ok() {
        put_records(&proto, words.len(), numbers);
    }
    FlatAnswer::from(answer)
}
