// Constants.
ghost use Rattle.std.specs.Prelude.{◌≡◌, length, IfOk};
ghost use Rattle.loaders.specs.Loaders.{load_constant, load_integer, load_number};
ghost use Rattle.loaders.specs.Reading.{read_as};
ghost use Rattle.loaders.specs.Lent.{string_tag, packed_of, ConstantInside, BytesBounded};

use crate::bytes::number_of_bytes;
use crate::reading::{Read, block, byte};
use crate::strings::{Bytes, string};
use common::Refusal;
use common::limits::SHORT_LENGTH;
use values::lookup::*;

// A tag with its payload, or a string's bytes.
#[derive(Clone, Copy)]
pub enum Constant {
    Plain(u8, u64),
    String(Bytes),
}

// A constant as it is lent.
#[derive(Clone, Copy)]
pub struct Packed {
    pub tag: u8,
    pub payload: u64,
}

// loadNumber, which takes a float's bits, and loadInteger
#[tactic(auto, unfolding(crate::specs::Loaders::load_integer, crate::specs::Loaders::load_number))]
fn eight_bytes(chunk: &[u8], at: usize) -> Read<u64>
    ensures { (result ≡ load_integer chunk.now at) × (result ≡ load_number chunk.now at) }
{
    let past = block(chunk, at, 8)?;
    Ok((number_of_bytes(chunk, at), past))
}

// loadConstants' switch: constant i. The hints: out of line its answer would be stored in pieces and loaded
// whole, for which the processor waits at every constant.
#[inline(always)]
#[tactic(auto, unfolding(crate::specs::Loaders::load_constant, crate::specs::Loaders::constant_by_tag, crate::specs::Loaders::load_string))]
pub fn constant_at(chunk: &[u8], at: usize, i: usize) -> Read<Constant>
    ensures value { result ≡ load_constant i chunk.now at }
    ensures inside { IfOk result (λ r. ConstantInside (length chunk.now) r.0) }
{
    let (tag, after) = byte(chunk, at)?;
    match tag {
        TAG_NIL | TAG_FALSE | TAG_TRUE => Ok((Constant::Plain(tag, 0), after)),
        TAG_FLOAT | TAG_INTEGER => {
            let (payload, past) = eight_bytes(chunk, after)?;
            Ok((Constant::Plain(tag, payload), past))
        }
        TAG_SHORT_STRING | TAG_LONG_STRING => {
            let (name, past) = string(chunk, after)?;
            let s = name.ok_or(Refusal::MalformedChunk)?;
            Ok((Constant::String(s), past))
        }
        _ => Err(Refusal::UnknownTag(i)),
    }
}

// A string's tag goes by its length, whatever the tag in the chunk says.
fn string_tag(length: usize) -> u8
    ensures { result ≡ string_tag length }
{
    if length <= SHORT_LENGTH {
        TAG_SHORT_STRING
    } else {
        TAG_LONG_STRING
    }
}

// Constant i as it is lent.
#[inline(always)]
pub fn packed_at(chunk: &[u8], at: usize, i: usize) -> Read<Packed>
    requires { BytesBounded chunk.now }
    ensures { result ≡ read_as packed_of (load_constant i chunk.now at) }
{
    let (k, past) = constant_at(chunk, at, i)?;
    match k {
        Constant::Plain(tag, payload) => Ok((Packed { tag, payload }, past)),
        Constant::String(s) => Ok((
            Packed {
                tag: string_tag(s.size),
                payload: (s.start + 4294967296 * s.size) as u64,
            },
            past,
        )),
    }
}
