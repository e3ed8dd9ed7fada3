// Begin, feed and reset by value: a meter goes in, a meter comes out.
ghost use Rattle.std.specs.Prelude.{◌≡◌, ◌*◌, ◌<◌, ◌≤◌};
ghost use Rattle.common.specs.Limits.{most_words, heaviest_weight};
ghost use Rattle.runs.specs.Script.{script_of, graph_of};
ghost use Rattle.meter.specs.Feed.{
  scale_of,
  begin_of,
  reset_of,
  one_service,
  showing,
  moved_to,
  is_foreign,
  is_stray,
  fed_of,
  feed_of,
};

use common::Refusal;
use common::limits::{HEAVIEST_WEIGHT, MOST_WORDS};
use fields::version::Version;
use runs::weighing::check_weights;

// Four numbers in the order of document 01 and the highest of request C-19, laid out as C lays them out.
// Kept: (a) a number for `begun`, not a bool: a bool of 2 from a C caller of lawendeb_feed_4 would have no
// meaning, while a number does: 0 is not begun, any other is.
#[repr(C)]
#[derive(Clone, Copy)]
pub struct Meter {
    pub begun: u32,
    pub last: u32,
    // What the words since service weigh.
    pub count: u32,
    pub services: u32,
    // The highest count shown since the last reset.
    pub highest: u32,
}

// Begin: not begun, 0, 0; the services and the highest stay.
#[tactic(auto, unfolding(crate::specs::Feed::begin_of))]
pub fn begin_step(m: Meter) -> Meter
    ensures { result ≡ begin_of m }
{
    Meter {
        begun: 0,
        last: 0,
        count: 0,
        ..m
    }
}

// Reset: the highest is the count of this moment; the rest stays.
#[tactic(auto, unfolding(crate::specs::Feed::reset_of))]
pub fn reset_step(m: Meter) -> Meter
    ensures { result ≡ reset_of m }
{
    Meter {
        highest: m.count,
        ..m
    }
}

// One service more, up to the ceiling, which is the highest number of 32 bits.
#[tactic(auto, unfolding(crate::specs::Feed::one_service))]
fn one_service(s: u32) -> u32
    ensures { result ≡ one_service s }
{
    s.saturating_add(1)
}

// Number 11: no meter of a function of n words, or one whose highest is below its count.
#[tactic(auto, unfolding(crate::specs::Feed::is_foreign))]
fn is_foreign(n: usize, m: Meter) -> bool
    ensures { result ≡ is_foreign n m }
{
    let last = m.last as usize;
    let count = m.count as usize;
    if m.highest < m.count {
        return true;
    }
    if m.begun == 0 {
        return last != 0 || count != 0;
    }
    n <= last || count == 0 || HEAVIEST_WEIGHT * (last + 1) < count
}

// Number 10: no word that can follow.
#[tactic(auto, unfolding(crate::specs::Feed::is_stray))]
fn is_stray(version: Version, words: &[u32], m: Meter, q: usize) -> bool
    ensures { result ≡ is_stray (graph_of (script_of version words.now)) m q }
{
    if words.len() <= q {
        return true;
    }
    if m.begun == 0 {
        return q != 0;
    }
    !runs::script::is_successor(version, words, m.last as usize, q)
}

// A begun meter, and a count that it shows now, after `before` was its highest.
#[tactic(auto, unfolding(crate::specs::Feed::showing))]
fn show_count(last: u32, count: u32, services: u32, before: u32) -> Meter
    ensures { result ≡ showing last count services before }
{
    Meter {
        begun: 1,
        last,
        count,
        services,
        highest: before.max(count),
    }
}

// The meter at q. What the checks leave is small enough to add to and to keep in 32 bits.
#[tactic(auto, unfolding(crate::specs::Feed::moved_to))]
fn moved(version: Version, words: &[u32], weights: &[u8], m: Meter, q: usize) -> Meter
    requires { (q < most_words) × (m.count ≤ heaviest_weight * most_words) }
    ensures { result ≡ moved_to (scale_of (script_of version words.now) weights.now) m q }
{
    let to = q as u32;
    let weight = runs::script::weight_at(version, words, weights, q);
    if m.begun == 0 {
        return show_count(to, weight, m.services, m.highest);
    }
    if sweep::edges::serves(m.last as usize, q) {
        return show_count(to, weight, one_service(m.services), m.highest);
    }
    show_count(to, m.count + weight, m.services, m.highest)
}

// A feed of word q of a script of either version, in bounded time: of the words only those are read that
// decide the edge and the weight. The meter after it, or why it is refused, which leaves the meter as it was.
pub fn feed_step(
    version: Version,
    words: &[u32],
    weights: &[u8],
    m: Meter,
    q: usize,
) -> Result<Meter, Refusal>
    ensures { fed_of m result ≡ feed_of (scale_of (script_of version words.now) weights.now) m q }
{
    if MOST_WORDS < words.len() {
        return Err(Refusal::TooManyWords);
    }
    check_weights(weights)?;
    if is_foreign(words.len(), m) {
        return Err(Refusal::ForeignMeter);
    }
    if is_stray(version, words, m, q) {
        return Err(Refusal::NoStep);
    }
    Ok(moved(version, words, weights, m, q))
}
