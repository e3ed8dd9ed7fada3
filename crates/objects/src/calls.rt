// Arms of lifter.rs from Call to Extraarg.
ghost use Rattle.std.specs.Prelude.{◌≡◌};
ghost use Rattle.objects.specs.Objects as F;

use builders::builders::Body;
use builders::parts::*;
use fields::lua54::word::RawInstruction54;
use values::few::Few;
use values::ir::{EffectTarget, TypedOperand};

pub fn lift_call(raw: RawInstruction54) -> Body
    ensures { result ≡ F.call raw }
{
    Body::plain(
        Few::of([
            TypedOperand::Register { index: raw.a },
            count_less(raw.b),
            count_less(raw.c),
        ]),
        call_reads(raw.a, raw.b),
        results(raw.a, raw.c),
    )
}

pub fn lift_tailcall(raw: RawInstruction54) -> Body
    ensures { result ≡ F.tailcall raw }
{
    Body::plain(
        Few::of([TypedOperand::Register { index: raw.a }, count_less(raw.b)]),
        Few::of([EffectTarget::Register { index: raw.a }]),
        Few::of([]),
    )
}

pub fn lift_return(raw: RawInstruction54) -> Body
    ensures { result ≡ F.return raw }
{
    Body::plain(
        Few::of([TypedOperand::Register { index: raw.a }, count_less(raw.b)]),
        results(raw.a, raw.b),
        Few::of([]),
    )
}

pub fn lift_return1(raw: RawInstruction54) -> Body
    ensures { result ≡ F.return1 raw }
{
    Body::plain(
        Few::of([TypedOperand::Register { index: raw.a }]),
        Few::of([EffectTarget::Register { index: raw.a }]),
        Few::of([]),
    )
}

pub fn lift_loop_jump(raw: RawInstruction54, offset: i32, dest: usize) -> Body
    ensures { result ≡ F.loop_jump raw offset dest }
{
    Body::new(
        Few::of([
            TypedOperand::Register { index: raw.a },
            TypedOperand::Jump {
                offset,
                target_pc: dest,
            },
        ]),
        Few::of([]),
        Few::of([]),
        None,
        Some(dest),
    )
}

pub fn lift_tforcall(raw: RawInstruction54) -> Body
    ensures { result ≡ F.tforcall raw }
{
    Body::plain(
        Few::of([
            TypedOperand::Register { index: raw.a },
            immediate(i64::from(raw.c)),
        ]),
        Few::of([EffectTarget::RegisterRange {
            start: raw.a,
            end: raw.a.saturating_add(2),
        }]),
        Few::of([EffectTarget::RegisterRange {
            start: raw.a.saturating_add(3),
            end: raw.a.saturating_add(2).saturating_add(raw.c),
        }]),
    )
}

pub fn lift_setlist(raw: RawInstruction54) -> Body
    ensures { result ≡ F.setlist raw }
{
    Body::plain(
        Few::of([
            TypedOperand::Register { index: raw.a },
            TypedOperand::Count {
                value: usize::from(raw.b),
                is_variable: raw.b == 0,
            },
        ]),
        Few::of([EffectTarget::Register { index: raw.a }]),
        Few::of([]),
    )
}

pub fn lift_closure(raw: RawInstruction54) -> Body
    ensures { result ≡ F.closure raw }
{
    Body::plain(
        Few::of([
            TypedOperand::Register { index: raw.a },
            TypedOperand::Prototype {
                index: raw.bx as usize,
            },
        ]),
        Few::of([EffectTarget::Prototype {
            index: raw.bx as usize,
        }]),
        Few::of([EffectTarget::Register { index: raw.a }]),
    )
}

pub fn lift_vararg(raw: RawInstruction54) -> Body
    ensures { result ≡ F.vararg raw }
{
    Body::plain(
        Few::of([TypedOperand::Register { index: raw.a }, count_less(raw.c)]),
        Few::of([]),
        Few::of([]),
    )
}

pub fn lift_varargprep(raw: RawInstruction54) -> Body
    ensures { result ≡ F.varargprep raw }
{
    Body::plain(
        Few::of([TypedOperand::Count {
            value: usize::from(raw.a),
            is_variable: false,
        }]),
        Few::of([]),
        Few::of([]),
    )
}

pub fn lift_extraarg(raw: RawInstruction54) -> Body
    ensures { result ≡ F.extraarg raw }
{
    Body::plain(
        Few::of([TypedOperand::ExtraArg { value: raw.ax }]),
        Few::of([]),
        Few::of([]),
    )
}
