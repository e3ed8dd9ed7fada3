// The parts of a record as numbers.
ghost use Rattle.std.specs.Prelude.{◌≡◌};
ghost use Rattle.numbered.specs.Parts.{
  slot,
  flat_option,
  flat_name,
  flat_value,
  flat_operand,
  flat_target,
  flat_role,
  flat_effect,
};

use crate::numbers::float_bits;
use values::few::Filler;
use values::ir::{CompanionRole, EffectTarget, ImplicitEffect, TypedOperand};
use values::model::{ConstantValue, Span};

// A kind and the numbers that it has.
#[derive(Clone, Copy, Debug, PartialEq, Eq)]
pub struct FlatSlot {
    pub kind: u64,
    pub first: u64,
    pub second: u64,
    pub third: u64,
}

// A kind, or whether there is a value, and the value.
#[derive(Clone, Copy, Debug, PartialEq, Eq)]
pub struct FlatPair {
    pub kind: u64,
    pub value: u64,
}

// What is listed in a record.
pub trait Flat: Filler {
    ghost use Rattle.numbered.specs.declared.parts.FlatSlot.{FlatSlot};

    ghost flat: { Self → FlatSlot };

    fn flat(self) -> FlatSlot
        ensures { result ≡ flat self };
}

impl Flat for TypedOperand {
    ghost flat = { flat_operand };

    fn flat(self) -> FlatSlot {
        FlatSlot::from(self)
    }
}

impl Flat for EffectTarget {
    ghost flat = { flat_target };

    fn flat(self) -> FlatSlot {
        FlatSlot::from(self)
    }
}

fn slot(kind: u64, first: u64, second: u64, third: u64) -> FlatSlot
    ensures { result ≡ slot kind first second third }
{
    FlatSlot {
        kind,
        first,
        second,
        third,
    }
}

impl From<Option<u64>> for FlatPair {
    ghost from_gives = { λ option flat. flat ≡ flat_option option };

    fn from(option: Option<u64>) -> FlatPair {
        match option {
            None => FlatPair { kind: 0, value: 0 },
            Some(value) => FlatPair { kind: 1, value },
        }
    }
}

impl From<Option<Span>> for FlatPair {
    ghost from_gives = { λ name flat. flat ≡ flat_name name };

    fn from(name: Option<Span>) -> FlatPair {
        FlatPair::from(name.map(u64::from))
    }
}

impl From<ConstantValue> for FlatPair {
    ghost from_gives = { λ constant flat. flat ≡ flat_value constant };

    fn from(constant: ConstantValue) -> FlatPair {
        let (kind, value) = match constant {
            ConstantValue::Nil => (0, 0),
            ConstantValue::Boolean(b) => (1, u64::from(b)),
            ConstantValue::Integer(i) => (2, i.cast_unsigned()),
            ConstantValue::Float(x) => (3, float_bits(x)),
            ConstantValue::NanBits(bits) => (3, bits),
            ConstantValue::ShortString(span) => (4, u64::from(span)),
            ConstantValue::LongString(span) => (5, u64::from(span)),
        };
        FlatPair { kind, value }
    }
}

impl From<TypedOperand> for FlatSlot {
    ghost from_gives = { λ operand flat. flat ≡ flat_operand operand };

    fn from(operand: TypedOperand) -> FlatSlot {
        match operand {
            TypedOperand::Register { index } => slot(0, u64::from(index), 0, 0),
            TypedOperand::Constant { index, value } => {
                let constant = FlatPair::from(value);
                slot(1, index as u64, constant.kind, constant.value)
            }
            TypedOperand::Upvalue { index, name } => {
                let name = FlatPair::from(name);
                slot(2, u64::from(index), name.kind, name.value)
            }
            TypedOperand::Prototype { index } => slot(3, index as u64, 0, 0),
            TypedOperand::ImmediateInt { value } => slot(4, value.cast_unsigned(), 0, 0),
            TypedOperand::ImmediateFloat { value } => slot(5, float_bits(value), 0, 0),
            TypedOperand::Jump { offset, target_pc } => slot(
                6,
                i64::from(offset).cast_unsigned(),
                target_pc as u64,
                0,
            ),
            TypedOperand::Count { value, is_variable } => {
                slot(7, value as u64, u64::from(is_variable), 0)
            }
            TypedOperand::Flag { value } => slot(8, u64::from(value), 0, 0),
            TypedOperand::ExtraArg { value } => slot(9, u64::from(value), 0, 0),
        }
    }
}

impl From<EffectTarget> for FlatSlot {
    ghost from_gives = { λ target flat. flat ≡ flat_target target };

    fn from(target: EffectTarget) -> FlatSlot {
        match target {
            EffectTarget::Register { index } => slot(0, u64::from(index), 0, 0),
            EffectTarget::RegisterRange { start, end } => {
                slot(1, u64::from(start), u64::from(end), 0)
            }
            EffectTarget::RegisterRangeToTop { start } => slot(2, u64::from(start), 0, 0),
            EffectTarget::Upvalue { index, name } => {
                let name = FlatPair::from(name);
                slot(3, u64::from(index), name.kind, name.value)
            }
            EffectTarget::Constant { index } => slot(4, index as u64, 0, 0),
            EffectTarget::Prototype { index } => slot(5, index as u64, 0, 0),
            EffectTarget::JumpTarget { pc } => slot(6, pc as u64, 0, 0),
        }
    }
}

impl From<CompanionRole> for FlatPair {
    ghost from_gives = { λ role flat. flat ≡ flat_role role };

    fn from(role: CompanionRole) -> FlatPair {
        match role {
            CompanionRole::ExtraArg => FlatPair { kind: 0, value: 0 },
            CompanionRole::Event(event) => FlatPair {
                kind: 1,
                value: u64::from(event),
            },
        }
    }
}

impl From<Option<ImplicitEffect>> for FlatSlot {
    ghost from_gives = { λ effect flat. flat ≡ flat_effect effect };

    fn from(effect: Option<ImplicitEffect>) -> FlatSlot {
        match effect {
            None => slot(0, 0, 0, 0),
            Some(ImplicitEffect::CloseUpvalues { min_register }) => {
                slot(4, u64::from(min_register), 0, 0)
            }
            Some(ImplicitEffect::ConditionalSkip { skip_target_pc }) => {
                slot(5, skip_target_pc as u64, 0, 0)
            }
            Some(
                ImplicitEffect::CompanionPair {
                    companion_pc,
                    companion_role,
                },
            ) => {
                let role = FlatPair::from(companion_role);
                slot(7, companion_pc as u64, role.kind, role.value)
            }
        }
    }
}
