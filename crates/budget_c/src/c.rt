// For C: the four meters are lent to be updated.
// Each export calls the function of that name in `budget`, and promises the same.
ghost use Rattle.std.specs.Prelude.{◌≡◌};
ghost use Rattle.runs.specs.Script.{lua54};
ghost use Rattle.meter.specs.Feed.{scale_of};
ghost use Rattle.budget.specs.Four.{begin_four_of, reset_four_of, feed_four_of};

use budget::Meters;
use common::c::FlatAnswer;

// For C: `struct lawendeb_answer lawendeb_begin_four(struct lawendeb_meters *ms, uint32_t script)`.
#[unsafe(no_mangle)]
pub extern "C" fn lawendeb_begin_four(ms: &mut Meters, script: u32) -> FlatAnswer
    ensures { (result ≡ (begin_four_of ms.old script).answer)
        × (ms.new ≡ (begin_four_of ms.old script).meters) }
{
    budget::c::lawendeb_begin_four(ms, script)
}

// For C: `struct lawendeb_answer lawendeb_reset_four(struct lawendeb_meters *ms, uint32_t script)`.
#[unsafe(no_mangle)]
pub extern "C" fn lawendeb_reset_four(ms: &mut Meters, script: u32) -> FlatAnswer
    ensures { (result ≡ (reset_four_of ms.old script).answer)
        × (ms.new ≡ (reset_four_of ms.old script).meters) }
{
    budget::c::lawendeb_reset_four(ms, script)
}

// For C: `struct lawendeb_answer lawendeb_feed_four(const uint32_t *words, size_t n, const uint8_t *weights,
// size_t weights_n, struct lawendeb_meters *ms, uint32_t script, uint32_t budget, size_t q)`.
#[unsafe(no_mangle)]
pub extern "C" fn lawendeb_feed_four(
    words: &[u32],
    weights: &[u8],
    ms: &mut Meters,
    script: u32,
    budget: u32,
    q: usize,
) -> FlatAnswer
    ensures { (result ≡ (feed_four_of (scale_of (lua54 words.now) weights.now)
        ms.old script budget q).answer)
        × (ms.new ≡ (feed_four_of (scale_of (lua54 words.now) weights.now)
        ms.old script budget q).meters) }
{
    budget::c::lawendeb_feed_four(words, weights, ms, script, budget, q)
}
