// For C: the meter is lent to be updated.
// Each export calls the function of that name in `meter`, and promises the same.
ghost use Rattle.std.specs.Prelude.{◌≡◌};
ghost use Rattle.runs.specs.Script.{lua54};
ghost use Rattle.meter.specs.Feed.{scale_of, begin_of, reset_of, feed_of};

use common::c::FlatAnswer;
use meter::Meter;

// For C: `void lawendeb_begin_4(struct lawendeb_meter *m)`.
#[unsafe(no_mangle)]
pub extern "C" fn lawendeb_begin_4(m: &mut Meter)
    ensures { m.new ≡ begin_of m.old }
{
    meter::c::lawendeb_begin_4(m)
}

// For C: `void lawendeb_reset(struct lawendeb_meter *m)`.
#[unsafe(no_mangle)]
pub extern "C" fn lawendeb_reset(m: &mut Meter)
    ensures { m.new ≡ reset_of m.old }
{
    meter::c::lawendeb_reset(m)
}

// For C: `struct lawendeb_answer lawendeb_feed_4(const uint32_t *words, size_t n, const uint8_t *weights,
// size_t weights_n, struct lawendeb_meter *m, size_t q)`.
#[unsafe(no_mangle)]
pub extern "C" fn lawendeb_feed_4(
    words: &[u32],
    weights: &[u8],
    m: &mut Meter,
    q: usize,
) -> FlatAnswer
    ensures { (result ≡ (feed_of (scale_of (lua54 words.now) weights.now) m.old q).answer)
        × (m.new ≡ (feed_of (scale_of (lua54 words.now) weights.now)
        m.old q).meter) }
{
    meter::c::lawendeb_feed_4(words, weights, m, q)
}
