// The records of all words, in the caller's list: a thin function over the lifter.
ghost use Rattle.std.specs.Prelude.{◌≡◌, length};
ghost use Rattle.tables.specs.Refusals.{answer_of};
ghost use Rattle.records.specs.Walk.{records_after};

use crate::word::lift_at;
use common::Refusal;
use tables::refusals::check;
use values::ir::SemanticInstruction;
use values::model::Prototype;

// Kept: slices where the lifter has a Prototype, since document 01 lends them so.
pub fn lift_proto_lua54<'a, 'b>(
    words: &'a [u32],
    tags: &'a [u8],
    payloads: &'a [u64],
    names: &'a [u64],
    bytes: &'a [u8],
    records: &'b mut [SemanticInstruction],
) -> Result<(), Refusal>
    ensures answer { result ≡ answer_of (length words.now) tags.now payloads.now
        names.now (length bytes.now) (length records.old) }
    ensures after { records.new ≡ records_after words.now tags.now payloads.now
        names.now (length bytes.now) records.old }
{
    let proto = Prototype {
        words,
        tags,
        payloads,
        names,
        bytes,
    };
    check(&proto, records.len())?;
    for pc in 0..words.len() {
        records[pc] = lift_at(&proto, pc);
    }
    Ok(())
}
