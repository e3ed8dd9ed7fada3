// The running numbers of the scripts: in place of the trace, what is needed of it.
ghost use Rattle.std.specs.Prelude.{◌≡◌, ◌≤◌};
ghost use Rattle.rehearsal.specs.Running.{noted_tally, NotBefore};

use crate::machine::Tally;

// A script ran so many of the words left. A turn of no words is none.
#[tactic(auto, unfolding(crate::specs::Running::noted_tally))]
pub(crate) fn note(t: Tally, left: u32, ran: u32) -> Tally
    requires { NotBefore left t.ended × (ran ≤ left) }
    ensures { result ≡ noted_tally t left ran }
{
    if ran == 0 {
        return t;
    }
    let waited = match t.ended {
        Some(ended) => ended - left,
        None => 0,
    };
    Tally {
        ended: Some(left - ran),
        longest: t.longest.max(waited),
    }
}
