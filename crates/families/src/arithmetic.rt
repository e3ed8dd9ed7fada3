// Arms of lifter.rs: Mmbin, Mmbini, Mmbink and Concat. The other arithmetic pushes what
// Gettable, Geti and Getfield do.
ghost use Rattle.std.specs.Prelude.{◌≡◌, Some};
ghost use Rattle.families.specs.Families as F;

use crate::control::lift_bare;
use builders::builders::Body;
use builders::parts::*;
use fields::lua54::word::RawInstruction54;
use values::few::Few;
use values::ir::{CompanionRole, EffectTarget, ImplicitEffect, TypedOperand};

fn pair_effect(pc: usize, raw: RawInstruction54) -> Option<ImplicitEffect>
    ensures { result ≡ Some (F.pair_effect pc raw) }
{
    Some(ImplicitEffect::CompanionPair {
        companion_pc: pc.saturating_sub(1),
        companion_role: CompanionRole::Event(event_of(raw.c)),
    })
}

pub fn lift_mmbin(pc: usize, raw: RawInstruction54) -> Body
    ensures { result ≡ F.mmbin pc raw }
{
    lift_bare(pair_effect(pc, raw))
}

pub fn lift_mmbini(pc: usize, raw: RawInstruction54) -> Body
    ensures { result ≡ F.mmbini pc raw }
{
    Body::new(
        Few::of([
            TypedOperand::Register { index: raw.a },
            immediate(i64::from(raw.sb)),
            TypedOperand::ExtraArg {
                value: u32::from(raw.c),
            },
            TypedOperand::Flag { value: raw.k != 0 },
        ]),
        Few::of([]),
        Few::of([]),
        pair_effect(pc, raw),
        None,
    )
}

pub fn lift_concat(raw: RawInstruction54) -> Body
    ensures { result ≡ F.concat raw }
{
    Body::plain(
        Few::of([
            TypedOperand::Register { index: raw.a },
            TypedOperand::Count {
                value: usize::from(raw.b),
                is_variable: false,
            },
        ]),
        Few::of([EffectTarget::RegisterRange {
            start: raw.a,
            end: raw.a.saturating_add(raw.b).saturating_sub(1),
        }]),
        Few::of([EffectTarget::Register { index: raw.a }]),
    )
}
