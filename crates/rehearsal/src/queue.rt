// The ready queue: the scripts that have not returned. The first has the turn.
ghost use Rattle.std.specs.Prelude.{◌≡◌, ℕ, ◌-◌, ◌<◌, ◌≤◌, ◌↔◌, List, [], ◌∷◌, ◌++◌, length, take};
ghost use Rattle.std.specs.Prelude.{replicate, IsTrue};
ghost use Rattle.rehearsal.specs.declared.machine.Task.{Task};
ghost use Rattle.rehearsal.specs.Machine.{task_at, tasks_from};

use crate::machine::Task;
use common::limits::MOST_SCRIPTS;
use std::marker::Model;

// What the places past the last hold, so that the tasks alone give the fields back, as Copy asks.
const NOWHERE: Task = Task { script: 0, word: 0 };

#[derive(Clone, Copy)]
pub struct Queue {
    tasks: [Task; MOST_SCRIPTS],
    size: usize,
}

impl Model for Queue {
    ghost Value = { List Task };

    ghost view = { λ q. take q.size q.tasks };

    ghost invariant = { λ q.
        (q.size ≤ length q.tasks) × (take q.size q.tasks ++ replicate (4 - q.size) (task_at 0 0) ≡ q.tasks) };

    ghost inverse = { λ ts. record {
      tasks = ts ++ replicate (4 - length ts) (task_at 0 0);
      size = length ts;
    } };
}

impl Queue {
    // So many scripts, the first given first, each at its first word.
    #[tactic(auto, using(crate::proofs::Tasks::tasks_length, crate::proofs::Tasks::tasks_more))]
    pub(crate) fn new(count: usize) -> Self
        requires { count ≤ 4 }
        ensures { result ≡ tasks_from 0 count }
    {
        let mut queue = Queue {
            tasks: [NOWHERE; MOST_SCRIPTS],
            size: 0,
        };
        for script in 0..count {
            queue.push(Task { script, word: 0 });
        }
        queue
    }

    pub(crate) fn is_empty(&self) -> bool
        ensures { IsTrue result ↔ (self.now ≡ []) }
    {
        self.size == 0
    }

    // The first leaves.
    pub(crate) fn pop(&mut self) -> Task
        requires { 0 < length self.old }
        ensures first { self.old ≡ result ∷ self.new }
        ensures room { length self.new < 4 }
    {
        let [first, second, third, fourth] = self.tasks;
        self.tasks = [second, third, fourth, NOWHERE];
        self.size -= 1;
        first
    }

    // A script goes to the end.
    pub(crate) fn push(&mut self, task: Task)
        requires { length self.old < 4 }
        ensures { self.new ≡ self.old ++ (task ∷ []) }
    {
        self.tasks[self.size] = task;
        self.size += 1;
    }
}
