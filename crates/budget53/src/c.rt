// The C interface.
ghost use Rattle.std.specs.Prelude.{◌≡◌};
ghost use Rattle.fields.specs.declared.version.Version.TheVariants.{Lua53};
ghost use Rattle.runs.specs.Script.{script_of};
ghost use Rattle.meter.specs.Feed.{scale_of};
ghost use Rattle.budget.specs.Four.{feed_four_of};

use budget::{Meters, feed_own, store};
use common::c::FlatAnswer;
use fields::version::Version;

// For C: `struct lawendeb_answer lawendeb_feed_four_53(const uint32_t *words, size_t n, const uint8_t
// *weights, size_t weights_n, struct lawendeb_meters *ms, uint32_t script, uint32_t budget, size_t q)`.
pub fn lawendeb_feed_four_53(
    words: &[u32],
    weights: &[u8],
    ms: &mut Meters,
    script: u32,
    budget: u32,
    q: usize,
) -> FlatAnswer
    ensures { (result ≡ (feed_four_of (scale_of (script_of Lua53 words.now) weights.now)
        ms.old script budget q).answer)
        × (ms.new ≡ (feed_four_of (scale_of (script_of Lua53 words.now) weights.now)
        ms.old script budget q).meters) }
{
    match feed_own(Version::Lua53, words, weights, *ms, script, budget, q) {
        Ok(next) => {
            store(ms, script, next);
            FlatAnswer::from(Ok(()))
        }
        Err(refusal) => FlatAnswer::from(Err(refusal)),
    }
}
