// Spans that end past the bytes which they are of.
ghost use Rattle.std.specs.Prelude.{◌≡◌, position};
ghost use Rattle.values.specs.Spans.{past, name_past};

use crate::lookup::UNNAMED;

// The sum is below 2^33 and needs 64 bits.
#[tactic(auto, unfolding(crate::specs::Spans::past))]
pub fn is_past(bytes: usize, payload: u64) -> bool
    ensures { result ≡ past bytes payload }
{
    let end = payload % 4294967296 + payload / 4294967296;
    bytes < end as usize
}

#[tactic(auto, unfolding(crate::specs::Spans::name_past, common::specs::Chain::choose))]
fn is_name_past(bytes: usize, payload: u64) -> bool
    ensures { result ≡ name_past bytes payload }
{
    payload != UNNAMED && is_past(bytes, payload)
}

// Where a name ends past the bytes first.
pub fn first_name_past(names: &[u64], bytes: usize) -> Option<usize>
    ensures { result ≡ position (name_past bytes) names.now }
{
    names.iter().position(|&name| is_name_past(bytes, name))
}
