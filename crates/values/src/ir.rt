// The Rust's ir.rs: a record and its parts. Of the implicit effects and confidences only those that
// lifter.rs makes stand here.
ghost use Rattle.values.specs.declared.ir.TypedOperand.TheVariants as operand;
ghost use Rattle.values.specs.declared.ir.EffectTarget.TheVariants as target;

use crate::few::{Few, Filler};
use crate::model::{ConstantValue, Span};

#[derive(Clone, Copy, Debug, PartialEq, Eq)]
pub enum EffectTarget {
    Register { index: u8 },
    RegisterRange { start: u8, end: u8 },
    RegisterRangeToTop { start: u8 },
    Upvalue { index: u8, name: Option<Span> },
    Constant { index: usize },
    Prototype { index: usize },
    JumpTarget { pc: usize },
}

#[derive(Clone, Copy, Debug, PartialEq)]
pub enum TypedOperand {
    Register { index: u8 },
    Constant { index: usize, value: ConstantValue },
    Upvalue { index: u8, name: Option<Span> },
    Prototype { index: usize },
    ImmediateInt { value: i64 },
    ImmediateFloat { value: f64 },
    Jump { offset: i32, target_pc: usize },
    Count { value: usize, is_variable: bool },
    Flag { value: bool },
    ExtraArg { value: u32 },
}

// The Rust's companion_role, a text, as EXTRAARG or an event's number.
// Kept: events as numbers, here and of the fallback, since a record gives ltm.h's own (include/RECORD.md).
#[derive(Clone, Copy, Debug, PartialEq, Eq)]
pub enum CompanionRole {
    ExtraArg,
    Event(u8),
}

#[derive(Clone, Copy, Debug, PartialEq, Eq)]
pub enum ImplicitEffect {
    CloseUpvalues {
        min_register: u8,
    },
    ConditionalSkip {
        skip_target_pc: usize,
    },
    CompanionPair {
        companion_pc: usize,
        companion_role: CompanionRole,
    },
}

#[derive(Clone, Copy, Debug, PartialEq, Eq)]
pub enum Confidence {
    Unverified,
    Reviewed,
}

// "Operand, read and write places past the count hold register 0".

impl Filler for TypedOperand {
    ghost filler = { operand.Register 0 };

    fn filler() -> TypedOperand {
        TypedOperand::Register { index: 0 }
    }
}

impl Filler for EffectTarget {
    ghost filler = { target.Register 0 };

    fn filler() -> EffectTarget {
        EffectTarget::Register { index: 0 }
    }
}

// "Operands (at most 4), reads (3), writes (2)".

pub type Operands = Few<TypedOperand, 4>;

pub type Reads = Few<EffectTarget, 3>;

pub type Writes = Few<EffectTarget, 2>;

// The fallback is a metamethod by its event's number in ltm.h, or 25 for `__metamethod`.
#[derive(Clone, Copy)]
pub struct SemanticInstruction {
    pub pc: usize,
    pub raw_word: u32,
    pub opcode: u8,
    pub operands: Operands,
    pub reads: Reads,
    pub writes: Writes,
    pub implicit_effect: Option<ImplicitEffect>,
    pub metamethod_fallback: Option<u8>,
    pub jump_target: Option<usize>,
    pub companion_pc: Option<usize>,
    pub confidence: Confidence,
}
