// The whole rehearsal.
ghost use Rattle.std.specs.Prelude.{◌≡◌};
ghost use Rattle.rehearsal.specs.Rehearse.{rehearse_of, marks_left, lengths_left};

use crate::acceptance::{accept, out_of_range};
use crate::rotation::play;
use common::Refusal;
use common::limits::MOST_SCRIPTS;

// The longest wait of each script; 0 for one that is not there.
pub type Waits = [u32; MOST_SCRIPTS];

// The longest wait of each of `count` scripts, or the first refusal that applies.
// Kept: w0 to w3 apart, as the documents name them and C lends them (lawendeb_rehearse).
pub fn rehearse(
    w0: &[u32],
    w1: &[u32],
    w2: &[u32],
    w3: &[u32],
    count: usize,
    quantum: u32,
    choices: &[u8],
    limit: u32,
    marks: &mut [u8],
    lengths: &mut [u32],
) -> Result<Waits, Refusal>
    ensures value { result ≡ rehearse_of w0.now w1.now w2.now w3.now
        count quantum choices.now limit marks.old lengths.old }
    ensures marks_after { marks.new
        ≡ marks_left w0.now w1.now w2.now w3.now count quantum
        choices.now limit marks.old lengths.old }
    ensures lengths_after { lengths.new
        ≡ lengths_left w0.now w1.now w2.now w3.now count quantum
        choices.now limit marks.old lengths.old }
{
    if out_of_range(count, quantum, choices) {
        return Err(Refusal::OutOfRange);
    }
    let scripts = [w0, w1, w2, w3];
    accept(&scripts, count, marks, lengths)?;
    Ok(play(&scripts, count, quantum, choices, limit))
}
