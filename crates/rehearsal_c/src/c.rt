// The C interface: the answer as plain numbers, since an exported function may give no enum.
ghost use Rattle.std.specs.Prelude.{◌≡◌};
ghost use Rattle.rehearsal.specs.Rehearse.{rehearse_of, marks_left, lengths_left};
ghost use Rattle.rehearsal.specs.Flat.{flat_rehearsal};

use rehearsal::c::FlatRehearsal;
use rehearsal::rehearse;

#[unsafe(no_mangle)]
pub extern "C" fn lawendeb_rehearse(
    w0: &[u32],
    w1: &[u32],
    w2: &[u32],
    w3: &[u32],
    count: usize,
    quantum: u32,
    choices: &[u8],
    limit: u32,
    marks: &mut [u8],
    lengths: &mut [u32],
) -> FlatRehearsal
    ensures value { result ≡ flat_rehearsal (rehearse_of w0.now w1.now w2.now w3.now
        count quantum choices.now limit marks.old lengths.old) }
    ensures marks_after { marks.new
        ≡ marks_left w0.now w1.now w2.now w3.now count quantum
        choices.now limit marks.old lengths.old }
    ensures lengths_after { lengths.new
        ≡ lengths_left w0.now w1.now w2.now w3.now count quantum
        choices.now limit marks.old lengths.old }
{
    FlatRehearsal::from(rehearse(
        w0, w1, w2, w3, count, quantum, choices, limit, marks, lengths,
    ))
}
