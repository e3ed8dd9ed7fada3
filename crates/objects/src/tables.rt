// Arms of lifter.rs from Getupval to SelfOp.
ghost use Rattle.std.specs.Prelude.{◌≡◌};
ghost use Rattle.objects.specs.Objects as F;

use builders::builders::Body;
use builders::parts::*;
use fields::lua54::word::RawInstruction54;
use values::few::Few;
use values::ir::{EffectTarget, TypedOperand};
use values::model::Prototype;

pub fn lift_getupval(proto: &Prototype<'_>, raw: RawInstruction54) -> Body
    ensures { result ≡ F.getupval proto.now.names.now raw }
{
    Body::plain(
        Few::of([
            TypedOperand::Register { index: raw.a },
            upvalue_operand(proto, raw.b),
        ]),
        Few::of([upvalue_target(proto, raw.b)]),
        Few::of([EffectTarget::Register { index: raw.a }]),
    )
}

pub fn lift_setupval(proto: &Prototype<'_>, raw: RawInstruction54) -> Body
    ensures { result ≡ F.setupval proto.now.names.now raw }
{
    Body::plain(
        Few::of([
            TypedOperand::Register { index: raw.a },
            upvalue_operand(proto, raw.b),
        ]),
        Few::of([EffectTarget::Register { index: raw.a }]),
        Few::of([upvalue_target(proto, raw.b)]),
    )
}

pub fn lift_gettabup(proto: &Prototype<'_>, raw: RawInstruction54) -> Body
    ensures { result ≡ F.gettabup proto.now.tags.now proto.now.payloads.now proto.now.names.now raw }
{
    Body::plain(
        Few::of([
            TypedOperand::Register { index: raw.a },
            upvalue_operand(proto, raw.b),
            rk_operand(proto, raw.k, raw.c),
        ]),
        Few::of([rk_target(raw.k, raw.c), upvalue_target(proto, raw.b)]),
        Few::of([EffectTarget::Register { index: raw.a }]),
    )
}

pub fn lift_three_registers(raw: RawInstruction54) -> Body
    ensures { result ≡ F.three_registers raw }
{
    Body::plain(
        Few::of([
            TypedOperand::Register { index: raw.a },
            TypedOperand::Register { index: raw.b },
            TypedOperand::Register { index: raw.c },
        ]),
        Few::of([
            EffectTarget::Register { index: raw.b },
            EffectTarget::Register { index: raw.c },
        ]),
        Few::of([EffectTarget::Register { index: raw.a }]),
    )
}

pub fn lift_with_immediate(raw: RawInstruction54, value: TypedOperand) -> Body
    ensures { result ≡ F.with_immediate raw value }
{
    Body::plain(
        Few::of([
            TypedOperand::Register { index: raw.a },
            TypedOperand::Register { index: raw.b },
            value,
        ]),
        Few::of([EffectTarget::Register { index: raw.b }]),
        Few::of([EffectTarget::Register { index: raw.a }]),
    )
}

pub fn lift_with_constant(proto: &Prototype<'_>, raw: RawInstruction54) -> Body
    ensures { result ≡ F.with_constant proto.now.tags.now proto.now.payloads.now raw }
{
    Body::plain(
        Few::of([
            TypedOperand::Register { index: raw.a },
            TypedOperand::Register { index: raw.b },
            constant_operand(proto, usize::from(raw.c)),
        ]),
        Few::of([
            EffectTarget::Register { index: raw.b },
            EffectTarget::Constant {
                index: usize::from(raw.c),
            },
        ]),
        Few::of([EffectTarget::Register { index: raw.a }]),
    )
}

pub fn lift_settabup(proto: &Prototype<'_>, raw: RawInstruction54) -> Body
    ensures { result ≡ F.settabup proto.now.tags.now proto.now.payloads.now proto.now.names.now raw }
{
    Body::plain(
        Few::of([
            upvalue_operand(proto, raw.a),
            rk_operand(proto, raw.k, raw.b),
            TypedOperand::Register { index: raw.c },
        ]),
        Few::of([
            rk_target(raw.k, raw.b),
            EffectTarget::Register { index: raw.c },
        ]),
        Few::of([upvalue_target(proto, raw.a)]),
    )
}

pub fn lift_settable(proto: &Prototype<'_>, raw: RawInstruction54) -> Body
    ensures { result ≡ F.settable proto.now.tags.now proto.now.payloads.now raw }
{
    Body::plain(
        Few::of([
            TypedOperand::Register { index: raw.a },
            TypedOperand::Register { index: raw.b },
            rk_operand(proto, raw.k, raw.c),
        ]),
        Few::of([
            rk_target(raw.k, raw.c),
            EffectTarget::Register { index: raw.a },
            EffectTarget::Register { index: raw.b },
        ]),
        Few::of([]),
    )
}

pub fn lift_seti(proto: &Prototype<'_>, raw: RawInstruction54) -> Body
    ensures { result ≡ F.seti proto.now.tags.now proto.now.payloads.now raw }
{
    Body::plain(
        Few::of([
            TypedOperand::Register { index: raw.a },
            immediate(i64::from(raw.b)),
            rk_operand(proto, raw.k, raw.c),
        ]),
        Few::of([
            rk_target(raw.k, raw.c),
            EffectTarget::Register { index: raw.a },
        ]),
        Few::of([]),
    )
}

pub fn lift_setfield(proto: &Prototype<'_>, raw: RawInstruction54) -> Body
    ensures { result ≡ F.setfield proto.now.tags.now proto.now.payloads.now raw }
{
    Body::plain(
        Few::of([
            TypedOperand::Register { index: raw.a },
            constant_operand(proto, usize::from(raw.b)),
            rk_operand(proto, raw.k, raw.c),
        ]),
        Few::of([
            rk_target(raw.k, raw.c),
            EffectTarget::Register { index: raw.a },
            EffectTarget::Constant {
                index: usize::from(raw.b),
            },
        ]),
        Few::of([]),
    )
}

pub fn lift_newtable(raw: RawInstruction54) -> Body
    ensures { result ≡ F.newtable raw }
{
    Body::plain(
        Few::of([
            TypedOperand::Register { index: raw.a },
            TypedOperand::Count {
                value: usize::from(raw.b),
                is_variable: false,
            },
            TypedOperand::Count {
                value: usize::from(raw.c),
                is_variable: false,
            },
        ]),
        Few::of([]),
        Few::of([EffectTarget::Register { index: raw.a }]),
    )
}

pub fn lift_self(proto: &Prototype<'_>, raw: RawInstruction54) -> Body
    ensures { result ≡ F.self_op proto.now.tags.now proto.now.payloads.now raw }
{
    Body::plain(
        Few::of([
            TypedOperand::Register { index: raw.a },
            TypedOperand::Register { index: raw.b },
            rk_operand(proto, raw.k, raw.c),
        ]),
        Few::of([
            rk_target(raw.k, raw.c),
            EffectTarget::Register { index: raw.b },
        ]),
        Few::of([
            EffectTarget::Register { index: raw.a },
            EffectTarget::Register {
                index: raw.a.saturating_add(1),
            },
        ]),
    )
}
