// A float as a number of 64 bits.
ghost use Rattle.std.specs.Prelude.{◌≡◌};
ghost use Rattle.numbered.specs.Parts.{float_bits};

// f64::to_bits has no value at what is not a number; no record holds that as an f64.
#[tactic(auto, unfolding(crate::specs::Parts::float_bits, common::specs::Chain::choose))]
pub(crate) fn float_bits(x: f64) -> u64
    ensures { result ≡ float_bits x }
{
    if x == x { f64::to_bits(x) } else { 0 }
}
