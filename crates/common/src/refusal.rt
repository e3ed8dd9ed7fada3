// Document 01, "Refused inputs", RULES 8, and document 02: each condition that refuses, with its place where
// one is named.
ghost use Rattle.std.specs.Prelude.{◌≡◌};
ghost use Rattle.common.specs.Refusals.{refusal_number, refusal_place};

use crate::numbers::*;

#[derive(Clone, Copy, Debug, PartialEq, Eq)]
pub enum Refusal {
    // More than 32,768 words.
    TooManyWords,
    // Tag and payload counts differ, or over 65,536.
    ConstantCount,
    // Unknown tag, of this constant.
    UnknownTag(usize),
    // A string ends past the string bytes, this constant's.
    StringPastBytes(usize),
    // Over 255 names, or this name past the string bytes.
    Names(usize),
    // A lent result slice shorter than the words.
    ShortSlice,
    NoWords,
    // A reachable bad word, the lowest.
    ReachesInvalid(usize),
    // The fed word is n or more, or no step from the last, or the first is not 0.
    NoStep,
    // The meter is not of this function, or its highest is below its count.
    ForeignMeter,
    // A sheet's line, this one, is malformed or over 4,294,967,295.
    MalformedLine(usize),
    // Line 4,097 exists.
    TooManyLines,
    // A header byte of a chunk differs.
    HeaderDiffers,
    // A chunk ends early, or has a count or a number over its limit, an absent constant string, too many
    // bytes or no such function.
    MalformedChunk,
    // A chunk's functions need a level 33.
    TooDeep,
    // This word reads a register that is no parameter and that some path has not set.
    UnsetRegister(usize),
    // A weight count other than 128, or this weight is 0.
    WeightsRefused(usize),
    // The low weight of this opcode is above its high.
    LowAboveHigh(usize),
    // A script number above 3.
    NoScript,
    // A budget that is not 1 to 16,777,216.
    BudgetRange,
    // After the feed the sum of the counts would be above the budget.
    OverBudget,
    // A script count, q or choice out of range.
    OutOfRange,
}

impl Refusal {
    pub fn number(self) -> u8
        ensures { result ≡ refusal_number self }
    {
        match self {
            Refusal::TooManyWords => TOO_MANY_WORDS,
            Refusal::ConstantCount => CONSTANT_COUNT,
            Refusal::UnknownTag(_) => UNKNOWN_TAG,
            Refusal::StringPastBytes(_) => STRING_PAST_BYTES,
            Refusal::Names(_) => NAMES,
            Refusal::ShortSlice => SHORT_SLICE,
            Refusal::NoWords => NO_WORDS,
            Refusal::ReachesInvalid(_) => REACHES_INVALID,
            Refusal::NoStep => NO_STEP,
            Refusal::ForeignMeter => FOREIGN_METER,
            Refusal::MalformedLine(_) => MALFORMED_LINE,
            Refusal::TooManyLines => TOO_MANY_LINES,
            Refusal::HeaderDiffers => HEADER_DIFFERS,
            Refusal::MalformedChunk => MALFORMED_CHUNK,
            Refusal::TooDeep => TOO_DEEP,
            Refusal::UnsetRegister(_) => UNSET_REGISTER,
            Refusal::WeightsRefused(_) => WEIGHTS_REFUSED,
            Refusal::LowAboveHigh(_) => LOW_ABOVE_HIGH,
            Refusal::NoScript => NO_SCRIPT,
            Refusal::BudgetRange => BUDGET_RANGE,
            Refusal::OverBudget => OVER_BUDGET,
            Refusal::OutOfRange => OUT_OF_RANGE,
        }
    }

    // 0 unless one is named.
    pub fn place(self) -> usize
        ensures { result ≡ refusal_place self }
    {
        match self {
            Refusal::UnknownTag(place)
            | Refusal::StringPastBytes(place)
            | Refusal::Names(place)
            | Refusal::ReachesInvalid(place)
            | Refusal::MalformedLine(place)
            | Refusal::UnsetRegister(place)
            | Refusal::WeightsRefused(place)
            | Refusal::LowAboveHigh(place) => place,
            _ => 0,
        }
    }
}
