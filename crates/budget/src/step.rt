// Begin, feed and reset one of four scripts, by value: four meters go in, four come out.
ghost use Rattle.std.specs.Prelude.{◌≡◌, cond};
ghost use Rattle.runs.specs.Script.{script_of};
ghost use Rattle.meter.specs.Feed.{scale_of, fed_of};
ghost use Rattle.budget.specs.Four.{
  meter_of,
  with_meter,
  sum_of,
  is_out_of_range,
  own_of,
  four_of,
  begin_four_of,
  reset_four_of,
  feed_four_of,
};

use common::Refusal;
use common::limits::{LAST_SCRIPT, MOST_BUDGET};
use fields::version::Version;
use meter::{Meter, begin_step, feed_step, reset_step};

// "Axis, focuser, dome and guider scripts": the meters of scripts 0 to 3, laid out as C lays them out.
#[repr(C)]
#[derive(Clone, Copy)]
pub struct Meters {
    pub axis: Meter,
    pub focuser: Meter,
    pub dome: Meter,
    pub guider: Meter,
}

// Kept: (d) field by field: where a whole meter is returned from an arm the four are copied to memory and
// loaded again.
#[tactic(auto, unfolding(crate::specs::Four::meter_of))]
fn meter_of(ms: Meters, script: u32) -> Meter
    ensures { result ≡ meter_of ms script }
{
    match script {
        0 => Meter {
            begun: ms.axis.begun,
            last: ms.axis.last,
            count: ms.axis.count,
            services: ms.axis.services,
            highest: ms.axis.highest,
        },
        1 => Meter {
            begun: ms.focuser.begun,
            last: ms.focuser.last,
            count: ms.focuser.count,
            services: ms.focuser.services,
            highest: ms.focuser.highest,
        },
        2 => Meter {
            begun: ms.dome.begun,
            last: ms.dome.last,
            count: ms.dome.count,
            services: ms.dome.services,
            highest: ms.dome.highest,
        },
        _ => Meter {
            begun: ms.guider.begun,
            last: ms.guider.last,
            count: ms.guider.count,
            services: ms.guider.services,
            highest: ms.guider.highest,
        },
    }
}

fn choose(t: bool, new: Meter, old: Meter) -> Meter
    ensures { result ≡ cond t new old }
{
    if t { new } else { old }
}

#[tactic(auto, unfolding(crate::specs::Four::with_meter))]
fn with_meter(ms: Meters, script: u32, m: Meter) -> Meters
    ensures { result ≡ with_meter ms script m }
{
    let axis = choose(script == 0, m, ms.axis);
    let focuser = choose(script == 1, m, ms.focuser);
    let dome = choose(script == 2, m, ms.dome);
    let guider = choose(script == 3, m, ms.guider);
    Meters {
        axis,
        focuser,
        dome,
        guider,
    }
}

// A script's meter put among the four; a number above 3 puts none.
// Kept: (d) beside with_meter: this one writes the script's meter alone, where the other would write all
// four.
#[tactic(auto, unfolding(crate::specs::Four::with_meter))]
pub fn store(ms: &mut Meters, script: u32, m: Meter)
    ensures { ms.new ≡ with_meter ms.old script m }
{
    match script {
        0 => ms.axis = m,
        1 => ms.focuser = m,
        2 => ms.dome = m,
        3 => ms.guider = m,
        _ => {}
    }
}

// Four counts of 32 bits: "the sum never wraps" in 64.
#[tactic(auto, unfolding(crate::specs::Four::sum_of))]
fn sum(ms: Meters) -> usize
    ensures { result ≡ sum_of ms }
{
    let axis = ms.axis.count as usize;
    let focuser = ms.focuser.count as usize;
    let dome = ms.dome.count as usize;
    let guider = ms.guider.count as usize;
    axis + (focuser + (dome + guider))
}

// Number 21.
#[tactic(auto, unfolding(crate::specs::Four::is_out_of_range))]
fn is_out_of_range(budget: u32) -> bool
    ensures { result ≡ is_out_of_range budget }
{
    budget == 0 || MOST_BUDGET < budget
}

#[tactic(auto, unfolding(crate::specs::Four::begin_four_of))]
pub fn begin_four(ms: Meters, script: u32) -> Result<Meters, Refusal>
    ensures { four_of ms result ≡ begin_four_of ms script }
{
    if LAST_SCRIPT < script {
        return Err(Refusal::NoScript);
    }
    Ok(with_meter(ms, script, begin_step(meter_of(ms, script))))
}

#[tactic(auto, unfolding(crate::specs::Four::reset_four_of))]
pub fn reset_four(ms: Meters, script: u32) -> Result<Meters, Refusal>
    ensures { four_of ms result ≡ reset_four_of ms script }
{
    if LAST_SCRIPT < script {
        return Err(Refusal::NoScript);
    }
    Ok(with_meter(ms, script, reset_step(meter_of(ms, script))))
}

// A feed of word q of the script, of either version, whose words and weights are lent, within the budget: the
// script's own meter after it. The others stay, and on a refusal this one, too.
pub fn feed_own(
    version: Version,
    words: &[u32],
    weights: &[u8],
    ms: Meters,
    script: u32,
    budget: u32,
    q: usize,
) -> Result<Meter, Refusal>
    ensures { fed_of (meter_of ms script) result ≡ own_of script (feed_four_of
        (scale_of (script_of version words.now) weights.now) ms script budget q) }
{
    let m = meter_of(ms, script);
    if LAST_SCRIPT < script {
        return Err(Refusal::NoScript);
    }
    if is_out_of_range(budget) {
        return Err(Refusal::BudgetRange);
    }
    let next = feed_step(version, words, weights, m, q)?;
    if (budget as usize) < sum(with_meter(ms, script, next)) {
        return Err(Refusal::OverBudget);
    }
    Ok(next)
}

// The same, with the four.
pub fn feed_four(
    version: Version,
    words: &[u32],
    weights: &[u8],
    ms: Meters,
    script: u32,
    budget: u32,
    q: usize,
) -> Result<Meters, Refusal>
    ensures { four_of ms result ≡ feed_four_of (scale_of (script_of version words.now) weights.now)
        ms script budget q }
{
    let next = feed_own(version, words, weights, ms, script, budget, q)?;
    Ok(with_meter(ms, script, next))
}
