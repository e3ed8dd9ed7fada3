// The Rust's closures get_const_val and get_upval_name, over the lent tags, payloads
// and names. Both are total.
ghost use Rattle.std.specs.Prelude.{◌≡◌};
ghost use Rattle.std.specs.Float.{binary64};
ghost use Rattle.std.specs.Float.Ieee.{nan_bits};
ghost use Rattle.values.specs.Values.{span_of, span_number, float_of, value_of, constant_of, name_of};

use crate::model::{ConstantValue, Span};

// A constant's Lua tags.
// Kept: numbers. C lends the tags as bytes, and what reads one asks at once which of these it is: an enum
// would only be made by the same match and matched again.

pub const TAG_NIL: u8 = 0;

pub const TAG_FALSE: u8 = 1;

pub const TAG_TRUE: u8 = 17;

pub const TAG_INTEGER: u8 = 3;

pub const TAG_FLOAT: u8 = 19;

pub const TAG_SHORT_STRING: u8 = 4;

pub const TAG_LONG_STRING: u8 = 20;

// The payload of a name that is none.
pub const UNNAMED: u64 = 18446744073709551615;

impl From<u64> for Span {
    ghost from_gives = { λ payload span. span ≡ span_of payload };

    fn from(payload: u64) -> Span {
        Span {
            start: (payload % 4294967296) as u32,
            len: (payload / 4294967296) as u32,
        }
    }
}

impl From<Span> for u64 {
    ghost from_gives = { λ span payload. payload ≡ span_number span.start span.len };

    fn from(span: Span) -> u64 {
        u64::from(span.start) + 4294967296 * u64::from(span.len)
    }
}

// Kept: by its bits. The library's is_nan asks a float, and its from_bits makes none of such bits.
fn is_nan(bits: u64) -> bool
    ensures { result ≡ nan_bits binary64 bits }
{
    bits % 9223372036854775808 / 4503599627370496 == 2047 && bits % 4503599627370496 != 0
}

#[tactic(auto, unfolding(crate::specs::Values::float_of, common::specs::Chain::choose))]
fn float(bits: u64) -> ConstantValue
    ensures { result ≡ float_of bits }
{
    if is_nan(bits) {
        ConstantValue::NanBits(bits)
    } else {
        ConstantValue::Float(f64::from_bits(bits))
    }
}

#[tactic(auto, unfolding(crate::specs::Values::value_of, crate::specs::Values::signed64, common::specs::Chain::choose))]
fn value(tag: u8, payload: u64) -> ConstantValue
    ensures { result ≡ value_of tag payload }
{
    match tag {
        TAG_FALSE => ConstantValue::Boolean(false),
        TAG_TRUE => ConstantValue::Boolean(true),
        TAG_INTEGER => ConstantValue::Integer(payload.cast_signed()),
        TAG_FLOAT => float(payload),
        TAG_SHORT_STRING => ConstantValue::ShortString(Span::from(payload)),
        TAG_LONG_STRING => ConstantValue::LongString(Span::from(payload)),
        _ => ConstantValue::Nil,
    }
}

#[tactic(auto, unfolding(crate::specs::Values::constant_of, common::specs::Chain::choose))]
pub fn constant_at(tags: &[u8], payloads: &[u64], index: usize) -> ConstantValue
    ensures { result ≡ constant_of tags.now payloads.now index }
{
    match (tags.get(index), payloads.get(index)) {
        (Some(&tag), Some(&payload)) => value(tag, payload),
        _ => ConstantValue::Nil,
    }
}

#[tactic(auto, unfolding(crate::specs::Values::name_of, common::specs::Chain::choose))]
pub fn upvalue_name(names: &[u64], index: usize) -> Option<Span>
    ensures { result ≡ name_of names.now index }
{
    names
        .get(index)
        .copied()
        .filter(|&payload| payload != UNNAMED)
        .map(Span::from)
}
