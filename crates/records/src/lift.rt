// The record of one word, by value.
ghost use Rattle.std.specs.Prelude.{◌≡◌, length};
ghost use Rattle.records.specs.Walk.{lifted_of, record_at};

use crate::word::lift_at;
use common::Refusal;
use common::limits::MOST_WORDS;
use tables::refusals::check;
use values::ir::SemanticInstruction;
use values::model::Prototype;

// One record by value, for a caller that has checked the tables once for all words: they need no check to be
// read.
#[tactic(auto, unfolding(crate::specs::Walk::record_at, common::specs::Chain::choose))]
pub fn record_at(proto: &Prototype<'_>, pc: usize) -> Option<SemanticInstruction>
    ensures { result ≡ record_at proto.now.words.now proto.now.tags.now proto.now.payloads.now
        proto.now.names.now pc }
{
    if MOST_WORDS < proto.words.len() || proto.words.len() <= pc {
        return None;
    }
    Some(lift_at(proto, pc))
}

// One record by value, for those who have no list to lend.
pub fn lift_word(proto: &Prototype<'_>, pc: usize) -> Result<Option<SemanticInstruction>, Refusal>
    ensures { result ≡ lifted_of proto.now.words.now proto.now.tags.now proto.now.payloads.now
        proto.now.names.now (length proto.now.bytes.now) pc }
{
    check(proto, proto.words.len())?;
    Ok(record_at(proto, pc))
}
