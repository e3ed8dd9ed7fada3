// Which arm of lifter.rs an opcode takes, a group of opcodes at a time. Callers keep pc below the most words.
ghost use Rattle.std.specs.Prelude.{◌≡◌, ◌+◌, ◌<◌, Some};
ghost use Rattle.common.specs.Limits.{most_words};
ghost use Rattle.values.specs.declared.ir.ImplicitEffect.TheVariants.{ConditionalSkip};
ghost use Rattle.dispatch.specs.Dispatch.{
  extended_index,
  jmp_target,
  ahead,
  back,
  loads,
  tables,
  arithmetic,
  control,
  calls,
  record_body,
};

use builders::builders::Body;
use builders::parts::{immediate, immediate_float};
use families::arithmetic::*;
use families::control::*;
use families::loads::*;
use fields::lua54::opcodes::*;
use fields::lua54::word::{RawInstruction54, ax, bx, opcode};
use objects::calls::*;
use objects::tables::*;
use values::ir::{CompanionRole, ImplicitEffect, TypedOperand};
use values::model::Prototype;

const OFFSET_SJ: usize = fields::lua54::word::OFFSET_SJ as usize;

#[tactic(auto, unfolding(crate::specs::Dispatch::extended_index, common::specs::Chain::choose))]
fn extended_index(words: &[u32], pc: usize) -> usize
    requires { pc < most_words }
    ensures { result ≡ extended_index words.now pc }
{
    match words.get(pc + 1) {
        Some(&word) if opcode(word) == OP_EXTRAARG => ax(word) as usize,
        _ => 0,
    }
}

// "A JMP target below 0 becomes 2^64 plus it": a difference of 64 bits.
fn jmp_target(pc: usize, word: u32) -> usize
    requires { pc < most_words }
    ensures { result ≡ jmp_target pc word }
{
    (pc + 1 + ax(word) as usize).wrapping_sub(OFFSET_SJ)
}

fn lift_ahead(pc: usize, word: u32, raw: RawInstruction54) -> Body
    requires { pc < most_words }
    ensures { result ≡ ahead pc word raw }
{
    let by = bx(word);
    lift_loop_jump(raw, by as i32, pc + 1 + by as usize)
}

fn lift_back(pc: usize, word: u32, raw: RawInstruction54) -> Body
    requires { pc < most_words }
    ensures { result ≡ back pc word raw }
{
    let by = bx(word);
    lift_loop_jump(raw, -(by as i32), (pc + 1).saturating_sub(by as usize))
}

// Past the next word: what a test and LFALSESKIP skip.
fn skip(pc: usize) -> Option<ImplicitEffect>
    requires { pc < most_words }
    ensures { result ≡ Some (ConditionalSkip (pc + 2)) }
{
    Some(ImplicitEffect::ConditionalSkip {
        skip_target_pc: pc + 2,
    })
}

#[tactic(auto, unfolding(crate::specs::Dispatch::loads, common::specs::Chain::choose))]
fn lift_loads(proto: &Prototype<'_>, pc: usize, raw: RawInstruction54, opcode: u8) -> Body
    requires { pc < most_words }
    ensures { result ≡ loads proto.now.words.now proto.now.tags.now proto.now.payloads.now pc raw opcode }
{
    let integer = i64::from(raw.sbx);
    match opcode {
        OP_MOVE => lift_unary(raw),
        OP_LOADI => lift_load(raw, immediate(integer), None),
        OP_LOADF => lift_load(raw, immediate_float(raw.sbx), None),
        OP_LOADK => lift_load_constant(proto, raw, raw.bx as usize, None),
        OP_LOADKX => {
            let pair = ImplicitEffect::CompanionPair {
                companion_pc: pc + 1,
                companion_role: CompanionRole::ExtraArg,
            };
            lift_load_constant(proto, raw, extended_index(proto.words, pc), Some(pair))
        }
        OP_LOADFALSE => lift_load(raw, TypedOperand::Flag { value: false }, None),
        OP_LFALSESKIP => lift_load(raw, TypedOperand::Flag { value: false }, skip(pc)),
        OP_LOADTRUE => lift_load(raw, TypedOperand::Flag { value: true }, None),
        _ => lift_loadnil(raw),
    }
}

#[tactic(auto, unfolding(crate::specs::Dispatch::tables, common::specs::Chain::choose))]
fn lift_tables(proto: &Prototype<'_>, raw: RawInstruction54, opcode: u8) -> Body
    ensures { result ≡ tables proto.now.tags.now proto.now.payloads.now proto.now.names.now raw opcode }
{
    match opcode {
        OP_GETUPVAL => lift_getupval(proto, raw),
        OP_SETUPVAL => lift_setupval(proto, raw),
        OP_GETTABUP => lift_gettabup(proto, raw),
        OP_GETTABLE => lift_three_registers(raw),
        OP_GETI => lift_with_immediate(raw, immediate(i64::from(raw.c))),
        OP_GETFIELD => lift_with_constant(proto, raw),
        OP_SETTABUP => lift_settabup(proto, raw),
        OP_SETTABLE => lift_settable(proto, raw),
        OP_SETI => lift_seti(proto, raw),
        OP_SETFIELD => lift_setfield(proto, raw),
        OP_NEWTABLE => lift_newtable(raw),
        _ => lift_self(proto, raw),
    }
}

#[tactic(auto, unfolding(crate::specs::Dispatch::arithmetic, common::specs::Chain::choose))]
fn lift_arithmetic(proto: &Prototype<'_>, pc: usize, raw: RawInstruction54, opcode: u8) -> Body
    ensures { result ≡ arithmetic proto.now.tags.now proto.now.payloads.now pc raw opcode }
{
    match opcode {
        OP_ADDI => lift_with_immediate(raw, immediate(i64::from(raw.sc))),
        ..=OP_BXORK => lift_with_constant(proto, raw),
        ..=OP_SHLI => lift_with_immediate(raw, immediate(i64::from(raw.sc))),
        ..=OP_SHR => lift_three_registers(raw),
        OP_MMBINI => lift_mmbini(pc, raw),
        ..=OP_MMBINK => lift_mmbin(pc, raw),
        ..=OP_LEN => lift_unary(raw),
        _ => lift_concat(raw),
    }
}

#[tactic(auto, unfolding(crate::specs::Dispatch::control, common::specs::Chain::choose))]
fn lift_control(pc: usize, word: u32, raw: RawInstruction54, opcode: u8) -> Body
    requires { pc < most_words }
    ensures { result ≡ control pc word raw opcode }
{
    match opcode {
        OP_CLOSE => lift_close(raw),
        OP_TBC => lift_tbc(raw),
        OP_JMP => lift_jmp(raw, jmp_target(pc, word)),
        ..=OP_EQK => lift_bare(skip(pc)),
        ..=OP_GEI => lift_test_immediate(raw, pc + 2),
        _ => lift_bare(skip(pc)),
    }
}

#[tactic(auto, unfolding(crate::specs::Dispatch::calls, common::specs::Chain::choose))]
fn lift_calls(pc: usize, word: u32, raw: RawInstruction54, opcode: u8) -> Body
    requires { pc < most_words }
    ensures { result ≡ calls pc word raw opcode }
{
    match opcode {
        OP_CALL => lift_call(raw),
        OP_TAILCALL => lift_tailcall(raw),
        OP_RETURN => lift_return(raw),
        OP_RETURN1 => lift_return1(raw),
        OP_FORLOOP | OP_TFORLOOP => lift_back(pc, word, raw),
        OP_FORPREP | OP_TFORPREP => lift_ahead(pc, word, raw),
        OP_TFORCALL => lift_tforcall(raw),
        OP_SETLIST => lift_setlist(raw),
        OP_CLOSURE => lift_closure(raw),
        OP_VARARG => lift_vararg(raw),
        OP_VARARGPREP => lift_varargprep(raw),
        OP_EXTRAARG => lift_extraarg(raw),
        // RETURN0, and unknown
        _ => lift_bare(None),
    }
}

#[tactic(auto, unfolding(crate::specs::Dispatch::record_body, common::specs::Chain::choose))]
pub fn lift_body(
    proto: &Prototype<'_>,
    pc: usize,
    word: u32,
    raw: RawInstruction54,
    opcode: u8,
) -> Body
    requires { pc < most_words }
    ensures { result ≡ record_body proto.now.words.now proto.now.tags.now proto.now.payloads.now
        proto.now.names.now pc word raw opcode }
{
    match opcode {
        ..=OP_LOADNIL => lift_loads(proto, pc, raw, opcode),
        ..=OP_SELF => lift_tables(proto, raw, opcode),
        ..=OP_CONCAT => lift_arithmetic(proto, pc, raw, opcode),
        ..=OP_TESTSET => lift_control(pc, word, raw, opcode),
        _ => lift_calls(pc, word, raw, opcode),
    }
}
