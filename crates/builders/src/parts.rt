// What several arms of lifter.rs share: sums of registers, the event map, and operands and
// effects that ask the tables.
ghost use Rattle.std.specs.Prelude.{◌≡◌, ◌∷◌, pos};
ghost use Rattle.std.specs.Float.{binary64};
ghost use Rattle.std.specs.Float.Ieee.{of_int};
ghost use Rattle.builders.specs.Parts.{
  event_of,
  constant,
  upvalue,
  upvalue_target,
  rk,
  rk_target,
  count_less,
  arguments,
  results,
};
ghost use Rattle.builders.specs.Shapes.{reads_of};
ghost use Rattle.values.specs.Few.{few};

use fields::lua54::events::*;
use values::few::Few;
use values::ir::{EffectTarget, Reads, TypedOperand};
use values::lookup::{constant_at, upvalue_name};
use values::model::Prototype;

// Events of ltm.h that the opcode table has no need of; `__metamethod` is the name that lifter.rs
// has for every other event.

const TM_EQ: u8 = 5;

const TM_ADD: u8 = 6;

const METAMETHOD: u8 = 25;

// lifter.rs's tm_name.
#[tactic(auto, unfolding(crate::specs::Parts::event_of, common::specs::Chain::choose))]
pub fn event_of(c: u8) -> u8
    ensures { result ≡ event_of c }
{
    match c {
        0..=16 => c + TM_ADD,
        17 => TM_LEN,
        18 => TM_EQ,
        _ => METAMETHOD,
    }
}

pub fn immediate(value: i64) -> TypedOperand
    ensures { result ≡ TypedOperand.ImmediateInt value }
{
    TypedOperand::ImmediateInt { value }
}

pub fn immediate_float(value: i32) -> TypedOperand
    ensures { result ≡ TypedOperand.ImmediateFloat (of_int binary64 value) }
{
    TypedOperand::ImmediateFloat {
        value: f64::from(value),
    }
}

#[tactic(auto, unfolding(crate::specs::Parts::constant))]
pub fn constant_operand(proto: &Prototype<'_>, index: usize) -> TypedOperand
    ensures { result ≡ constant proto.now.tags.now proto.now.payloads.now index }
{
    TypedOperand::Constant {
        index,
        value: constant_at(proto.tags, proto.payloads, index),
    }
}

#[tactic(auto, unfolding(crate::specs::Parts::upvalue))]
pub fn upvalue_operand(proto: &Prototype<'_>, index: u8) -> TypedOperand
    ensures { result ≡ upvalue proto.now.names.now index }
{
    TypedOperand::Upvalue {
        index,
        name: upvalue_name(proto.names, usize::from(index)),
    }
}

#[tactic(auto, unfolding(crate::specs::Parts::upvalue_target))]
pub fn upvalue_target(proto: &Prototype<'_>, index: u8) -> EffectTarget
    ensures { result ≡ upvalue_target proto.now.names.now index }
{
    EffectTarget::Upvalue {
        index,
        name: upvalue_name(proto.names, usize::from(index)),
    }
}

#[tactic(auto, unfolding(crate::specs::Parts::rk, common::specs::Chain::choose))]
pub fn rk_operand(proto: &Prototype<'_>, k: u8, index: u8) -> TypedOperand
    ensures { result ≡ rk proto.now.tags.now proto.now.payloads.now k index }
{
    if k == 0 {
        TypedOperand::Register { index }
    } else {
        constant_operand(proto, usize::from(index))
    }
}

#[tactic(auto, unfolding(crate::specs::Parts::rk_target, common::specs::Chain::choose))]
pub fn rk_target(k: u8, index: u8) -> EffectTarget
    ensures { result ≡ rk_target k index }
{
    if k == 0 {
        EffectTarget::Register { index }
    } else {
        EffectTarget::Constant {
            index: usize::from(index),
        }
    }
}

#[tactic(auto, unfolding(crate::specs::Parts::count_less))]
pub fn count_less(field: u8) -> TypedOperand
    ensures { result ≡ count_less field }
{
    TypedOperand::Count {
        value: usize::from(field).saturating_sub(1),
        is_variable: field == 0,
    }
}

#[tactic(auto, unfolding(crate::specs::Parts::arguments, common::specs::Chain::choose))]
pub fn call_reads(a: u8, b: u8) -> Reads
    ensures { result ≡ reads_of (EffectTarget.Register a ∷ arguments a b) }
{
    let callee = EffectTarget::Register { index: a };
    let start = a.saturating_add(1);
    match b {
        0 => Few::of([callee, EffectTarget::RegisterRangeToTop { start }]),
        1 => Few::of([callee]),
        _ => {
            let end = a.saturating_add(b).saturating_sub(1);
            Few::of([callee, EffectTarget::RegisterRange { start, end }])
        }
    }
}

// The results of a CALL, which it writes, by C, and the values of a RETURN, which it reads, by B.
#[tactic(auto, unfolding(crate::specs::Parts::results, common::specs::Chain::choose))]
pub fn results<const N: usize>(a: u8, field: u8) -> Few<EffectTarget, N>
    ensures { result ≡ few N (EffectTarget.Register 0) (results a field) }
{
    match field {
        0 => Few::of([EffectTarget::RegisterRangeToTop { start: a }]),
        1 => Few::of([]),
        _ => {
            let end = a.saturating_add(field).saturating_sub(2);
            Few::of([EffectTarget::RegisterRange { start: a, end }])
        }
    }
}
