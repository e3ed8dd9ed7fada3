// What lifting refuses: numbers 1 to 6 of document 01's table (RULES 8), in its order.
ghost use Rattle.std.specs.Prelude.{◌≡◌, length, position, zip};
ghost use Rattle.tables.specs.Refusals.{unknown_tag, is_string, string_past, constant_past, answer_of};

use common::Refusal;
use common::limits::*;
use values::lookup::*;
use values::model::Prototype;
use values::spans::{first_name_past, is_past};

#[tactic(auto, unfolding(crate::specs::Refusals::unknown_tag, common::specs::Chain::choose))]
fn is_unknown(tag: u8) -> bool
    ensures { result ≡ unknown_tag tag }
{
    !matches!(
        tag,
        TAG_NIL
            | TAG_FALSE
            | TAG_TRUE
            | TAG_INTEGER
            | TAG_FLOAT
            | TAG_SHORT_STRING
            | TAG_LONG_STRING
    )
}

#[tactic(auto, unfolding(crate::specs::Refusals::is_string, common::specs::Chain::choose))]
fn is_string(tag: u8) -> bool
    ensures { result ≡ is_string tag }
{
    matches!(tag, TAG_SHORT_STRING | TAG_LONG_STRING)
}

#[tactic(auto, unfolding(crate::specs::Refusals::string_past, common::specs::Chain::choose))]
fn is_string_past(bytes: usize, tag: u8, payload: u64) -> bool
    ensures { result ≡ string_past bytes tag payload }
{
    is_string(tag) && is_past(bytes, payload)
}

fn first_unknown_tag(tags: &[u8]) -> Option<usize>
    ensures { result ≡ position unknown_tag tags.now }
{
    tags.iter().position(|&tag| is_unknown(tag))
}

fn first_string_past(tags: &[u8], payloads: &[u64], bytes: usize) -> Option<usize>
    ensures { result ≡ position (constant_past bytes) (zip tags.now payloads.now) }
{
    tags.iter()
        .zip(payloads)
        .position(|(&tag, &payload)| is_string_past(bytes, tag, payload))
}

// What refuses a function's tables, of so many places for records.
#[tactic(auto, using(crate::proofs::Found::tag_found, crate::proofs::Found::string_found, values::proofs::NamesPast::name_found), unfolding(crate::specs::Refusals::answer_of))]
pub fn check(proto: &Prototype<'_>, room: usize) -> Result<(), Refusal>
    ensures { result ≡ answer_of (length proto.now.words.now) proto.now.tags.now proto.now.payloads.now
        proto.now.names.now (length proto.now.bytes.now) room }
{
    let n = proto.words.len();
    let bytes = proto.bytes.len();
    if MOST_WORDS < n {
        return Err(Refusal::TooManyWords);
    }
    if proto.tags.len() != proto.payloads.len() || MOST_CONSTANTS < proto.tags.len() {
        return Err(Refusal::ConstantCount);
    }
    if let Some(place) = first_unknown_tag(proto.tags) {
        return Err(Refusal::UnknownTag(place));
    }
    if let Some(place) = first_string_past(proto.tags, proto.payloads, bytes) {
        return Err(Refusal::StringPastBytes(place));
    }
    if MOST_NAMES < proto.names.len() {
        return Err(Refusal::Names(0));
    }
    if let Some(place) = first_name_past(proto.names, bytes) {
        return Err(Refusal::Names(place));
    }
    if room < n {
        return Err(Refusal::ShortSlice);
    }
    Ok(())
}
