// For C: the feed of one of four scripts where that is of Lua 5.3.
// Each export calls the function of that name in `budget53`, and promises the same.
ghost use Rattle.std.specs.Prelude.{◌≡◌};
ghost use Rattle.fields.specs.declared.version.Version.TheVariants.{Lua53};
ghost use Rattle.runs.specs.Script.{script_of};
ghost use Rattle.meter.specs.Feed.{scale_of};
ghost use Rattle.budget.specs.Four.{feed_four_of};

use budget::Meters;
use common::c::FlatAnswer;

// For C: `struct lawendeb_answer lawendeb_feed_four_53(const uint32_t *words, size_t n, const uint8_t
// *weights, size_t weights_n, struct lawendeb_meters *ms, uint32_t script, uint32_t budget, size_t q)`.
#[unsafe(no_mangle)]
pub extern "C" fn lawendeb_feed_four_53(
    words: &[u32],
    weights: &[u8],
    ms: &mut Meters,
    script: u32,
    budget: u32,
    q: usize,
) -> FlatAnswer
    ensures { (result ≡ (feed_four_of (scale_of (script_of Lua53 words.now) weights.now)
        ms.old script budget q).answer)
        × (ms.new ≡ (feed_four_of (scale_of (script_of Lua53 words.now) weights.now)
        ms.old script budget q).meters) }
{
    budget53::c::lawendeb_feed_four_53(words, weights, ms, script, budget, q)
}
