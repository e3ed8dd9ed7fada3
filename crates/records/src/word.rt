// The record of a word: its arm's operands and effects, with fallback, companion and confidence.
ghost use Rattle.std.specs.Prelude.{◌≡◌, ◌<◌, ◌≤◌, length};
ghost use Rattle.common.specs.Limits.{most_words};
ghost use Rattle.fields.specs.lua54.Word.{opcode_of};
ghost use Rattle.fields.specs.lua54.Table.{fallback_of};
ghost use Rattle.records.specs.Lift.{fallback_by, companion_pc, confidence_of, lift_of};

use builders::parts::event_of;
use dispatch::inner::lift_body;
use fields::lua54::columns::*;
use fields::lua54::lookup::fallback;
use fields::lua54::opcodes::*;
use fields::lua54::word::{decode, opcode};
use values::ir::{Confidence, SemanticInstruction};
use values::model::Prototype;

fn fallback_of(word: u32, c: u8) -> Option<u8>
    ensures { result ≡ fallback_by (fallback_of (opcode_of word)) c }
{
    match fallback(word) {
        NO_FALLBACK => None,
        BY_C => Some(event_of(c)),
        event => Some(event),
    }
}

#[tactic(auto, unfolding(crate::specs::Lift::companion_pc, crate::specs::Lift::before, common::specs::Chain::choose))]
fn companion_of(opcode: u8, pc: usize) -> Option<usize>
    requires { pc < most_words }
    ensures { result ≡ companion_pc opcode pc }
{
    match opcode {
        OP_LOADKX => Some(pc + 1),
        OP_MMBIN | OP_MMBINI | OP_MMBINK | OP_EXTRAARG => pc.checked_sub(1),
        _ => None,
    }
}

#[tactic(auto, unfolding(crate::specs::Lift::confidence_of, common::specs::Chain::choose))]
fn confidence_of(opcode: u8) -> Confidence
    ensures { result ≡ confidence_of opcode }
{
    if opcode <= OP_EXTRAARG {
        Confidence::Reviewed
    } else {
        Confidence::Unverified
    }
}

#[tactic(auto, unfolding(crate::specs::Lift::lift_of))]
pub fn lift_at(proto: &Prototype<'_>, pc: usize) -> SemanticInstruction
    requires within { pc < length proto.now.words.now }
    requires few { length proto.now.words.now ≤ most_words }
    ensures { result ≡ lift_of proto.now.words.now proto.now.tags.now proto.now.payloads.now
        proto.now.names.now pc }
{
    let raw_word = proto.words[pc];
    let raw = decode(raw_word);
    let number = opcode(raw_word);
    let body = lift_body(proto, pc, raw_word, raw, number);
    SemanticInstruction {
        pc,
        raw_word,
        opcode: number,
        operands: body.operands,
        reads: body.reads,
        writes: body.writes,
        implicit_effect: body.implicit_effect,
        metamethod_fallback: fallback_of(raw_word, raw.c),
        jump_target: body.jump_target,
        companion_pc: companion_of(number, pc),
        confidence: confidence_of(number),
    }
}
