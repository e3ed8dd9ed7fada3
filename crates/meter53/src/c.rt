// The C interface.
ghost use Rattle.std.specs.Prelude.{◌≡◌};
ghost use Rattle.fields.specs.declared.version.Version.TheVariants.{Lua53};
ghost use Rattle.runs.specs.Script.{script_of};
ghost use Rattle.meter.specs.Feed.{scale_of, feed_of};

use common::c::FlatAnswer;
use fields::version::Version;
use meter::Meter;

// For C: `struct lawendeb_answer lawendeb_feed_53(const uint32_t *words, size_t n, const uint8_t *weights,
// size_t weights_n, struct lawendeb_meter *m, size_t q)`.
pub fn lawendeb_feed_53(words: &[u32], weights: &[u8], m: &mut Meter, q: usize) -> FlatAnswer
    ensures { (result ≡ (feed_of (scale_of (script_of Lua53 words.now) weights.now)
        m.old q).answer)
        × (m.new ≡ (feed_of (scale_of (script_of Lua53 words.now) weights.now)
        m.old q).meter) }
{
    let fed = meter::feed_step(Version::Lua53, words, weights, *m, q);
    if let Ok(next) = fed {
        *m = next;
    }
    FlatAnswer::from(fed.map(|_| ()))
}
