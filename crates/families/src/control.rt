// Arms of lifter.rs from Close to the tests.
ghost use Rattle.std.specs.Prelude.{◌≡◌};
ghost use Rattle.families.specs.Families as F;

use builders::builders::Body;
use builders::parts::*;
use fields::lua54::word::RawInstruction54;
use values::few::Few;
use values::ir::{EffectTarget, ImplicitEffect, TypedOperand};

pub fn lift_close(raw: RawInstruction54) -> Body
    ensures { result ≡ F.close raw }
{
    Body::new(
        Few::of([TypedOperand::Register { index: raw.a }]),
        Few::of([]),
        Few::of([]),
        Some(ImplicitEffect::CloseUpvalues {
            min_register: raw.a,
        }),
        None,
    )
}

pub fn lift_tbc(raw: RawInstruction54) -> Body
    ensures { result ≡ F.tbc raw }
{
    Body::plain(
        Few::of([TypedOperand::Register { index: raw.a }]),
        Few::of([]),
        Few::of([]),
    )
}

pub fn lift_jmp(raw: RawInstruction54, dest: usize) -> Body
    ensures { result ≡ F.jmp raw dest }
{
    Body::new(
        Few::of([TypedOperand::Jump {
            offset: raw.sj,
            target_pc: dest,
        }]),
        Few::of([EffectTarget::JumpTarget { pc: dest }]),
        Few::of([]),
        None,
        Some(dest),
    )
}

pub fn lift_test_immediate(raw: RawInstruction54, skip: usize) -> Body
    ensures { result ≡ F.test_immediate raw skip }
{
    Body::new(
        Few::of([
            TypedOperand::Register { index: raw.a },
            immediate(i64::from(raw.sb)),
            TypedOperand::Flag { value: raw.k != 0 },
        ]),
        Few::of([EffectTarget::Register { index: raw.a }]),
        Few::of([]),
        Some(ImplicitEffect::ConditionalSkip {
            skip_target_pc: skip,
        }),
        None,
    )
}

pub fn lift_bare(effect: Option<ImplicitEffect>) -> Body
    ensures { result ≡ F.bare effect }
{
    Body::new(Few::of([]), Few::of([]), Few::of([]), effect, None)
}
