// The rotation, a turn at a time.
ghost use Rattle.std.specs.Prelude.{◌≡◌, ℕ, ◌<◌, ◌≤◌};
ghost use Rattle.rehearsal.specs.Running.{next_stage, start_stage, Fine};
ghost use Rattle.rehearsal.specs.Rehearse.{graphs_in, waits_in, trace_in};

use crate::machine::{Stage, Tally, Task, Turn};
use crate::queue::Queue;
use crate::rehearsing::Waits;
use crate::tallies::note;
use crate::turn::turn;
use common::limits::MOST_SCRIPTS;

// The stage after a turn of the queue's first. It is changed where it stands: by value all of it would be
// copied twice at each turn, and a turn may be one word.
fn next_turn(scripts: &[&[u32]; MOST_SCRIPTS], quantum: u32, choices: &[u8], st: &mut Stage)
    requires { Fine st.old × (0 < st.old.left) }
    ensures { st.new ≡ next_stage (graphs_in scripts.now) quantum choices.now st.old }
{
    let left = st.left;
    let task = st.queue.pop();
    let t = turn(
        scripts[task.script],
        choices,
        quantum.min(left),
        task.word,
        st.taken,
    );
    st.tallies[task.script] = note(st.tallies[task.script], left, t.ran());
    match t {
        Turn::Starved(_) => st.left = 0,
        Turn::Returned(ran, taken) => {
            st.left = if st.queue.is_empty() { 0 } else { left - ran };
            st.taken = taken;
        }
        Turn::Over(ran, word, taken) => {
            st.queue.push(Task {
                script: task.script,
                word,
            });
            st.left = left - ran;
            st.taken = taken;
        }
    }
}

// Before the first turn.
#[tactic(auto, unfolding(crate::specs::Running::start_stage))]
fn start(count: usize, limit: u32) -> Stage
    requires { count ≤ 4 }
    ensures { result ≡ start_stage count limit }
{
    Stage {
        queue: Queue::new(count),
        tallies: [Tally {
            ended: None,
            longest: 0,
        }; MOST_SCRIPTS],
        left: limit,
        taken: 0,
    }
}

// The longest waits of a rehearsal.
pub(crate) fn play(
    scripts: &[&[u32]; MOST_SCRIPTS],
    count: usize,
    quantum: u32,
    choices: &[u8],
    limit: u32,
) -> Waits
    requires { (0 < count) × (count ≤ 4) × (0 < quantum) }
    ensures { result ≡ waits_in (trace_in scripts.now count quantum choices.now limit) }
{
    let mut st = start(count, limit);
    while 0 < st.left {
        next_turn(scripts, quantum, choices, &mut st);
    }
    st.tallies.map(|t| t.longest)
}
