// Arms of lifter.rs from Move to Loadnil, and the unary operators, which push what Move does.
ghost use Rattle.std.specs.Prelude.{◌≡◌};
ghost use Rattle.families.specs.Families as F;

use builders::builders::Body;
use builders::parts::*;
use fields::lua54::word::RawInstruction54;
use values::few::Few;
use values::ir::{EffectTarget, ImplicitEffect, TypedOperand};
use values::model::Prototype;

pub fn lift_unary(raw: RawInstruction54) -> Body
    ensures { result ≡ F.unary raw }
{
    Body::plain(
        Few::of([
            TypedOperand::Register { index: raw.a },
            TypedOperand::Register { index: raw.b },
        ]),
        Few::of([EffectTarget::Register { index: raw.b }]),
        Few::of([EffectTarget::Register { index: raw.a }]),
    )
}

pub fn lift_load(raw: RawInstruction54, value: TypedOperand, effect: Option<ImplicitEffect>) -> Body
    ensures { result ≡ F.load raw value effect }
{
    Body::new(
        Few::of([TypedOperand::Register { index: raw.a }, value]),
        Few::of([]),
        Few::of([EffectTarget::Register { index: raw.a }]),
        effect,
        None,
    )
}

pub fn lift_load_constant(
    proto: &Prototype<'_>,
    raw: RawInstruction54,
    index: usize,
    effect: Option<ImplicitEffect>,
) -> Body
    ensures { result ≡ F.load_constant_body proto.now.tags.now proto.now.payloads.now raw index effect }
{
    Body::new(
        Few::of([
            TypedOperand::Register { index: raw.a },
            constant_operand(proto, index),
        ]),
        Few::of([EffectTarget::Constant { index }]),
        Few::of([EffectTarget::Register { index: raw.a }]),
        effect,
        None,
    )
}

pub fn lift_loadnil(raw: RawInstruction54) -> Body
    ensures { result ≡ F.loadnil raw }
{
    Body::plain(
        Few::of([
            TypedOperand::Register { index: raw.a },
            TypedOperand::Count {
                value: usize::from(raw.b) + 1,
                is_variable: false,
            },
        ]),
        Few::of([]),
        Few::of([EffectTarget::RegisterRange {
            start: raw.a,
            end: raw.a.saturating_add(raw.b),
        }]),
    )
}
