ghost use Rattle.std.specs.Prelude.{◌≡◌, ◌≢◌, ℕ, ◌+◌, ◌≤◌, ◌<◌, ◌^◌, List, Option, Some, None, Ok, Err};
ghost use Rattle.farm_kinds.specs.declared.outcomes.Task.{Task};
ghost use Rattle.farm_kinds.specs.declared.events.Reply.TheVariants as replies;
ghost use Rattle.farm_io.specs.Streams.{Rose};
ghost use Rattle.case_run.specs.Cases.{TestCase, CanRun, test_case};
ghost use Rattle.case_run.specs.Values.{case_value};
ghost use Rattle.judgehost.specs.Benches.{Heard, IsPending, heard_at_claim, heard_at_post, tasks_in};

use crate::runner::Done;
use case_run::Case;
use farm_kinds::{Reply, Task};

/// Why a bench refuses a call.
#[derive(Clone, Copy, Debug, PartialEq, Eq)]
pub enum BenchFault {
    /// What lies between the bench and the farm failed.
    Link,
    /// The host holds as many leases as it may.
    Holding,
    /// The host is not up.
    NoHost,
    /// The task that was handed out has no case.
    NoCase { task: Task },
    /// No memory was left.
    NoMemory,
}

/// What a claim is answered.
#[derive(Clone, Copy, Debug, PartialEq, Eq)]
pub enum Claimed {
    /// The host is to run this task.
    Task(Task),
    /// No task is open.
    Nothing,
    /// The claim was refused.
    Refused(BenchFault),
}

/// Where a host gets its tasks and posts their results. A new bench has made no claim and heard nothing.
pub trait Bench {
    /// What kind of data stays the same.
    ghost Fixed: { Type 0 };
    /// What stays the same in every call.
    ghost fixed: { Self → Fixed };
    /// The task that was handed out last, with its case, until a result is posted.
    ghost pending: { Self → Option (Task × TestCase) };
    /// How often the link to the farm has failed.
    ghost faults: { Self → ℕ };
    /// How many claims were made.
    ghost claims: { Self → ℕ };
    /// How many tasks were handed out.
    ghost tasks: { Self → ℕ };
    /// How many results were posted.
    ghost posts: { Self → ℕ };
    /// What the last call answered, where this was nothing or a refusal.
    ghost heard: { Self → Option Heard };
    /// What a host's work keeps: each claim that is made while nothing was heard and no task is pending, and each post that
    /// is made while nothing was heard.
    ghost sound: { Self → Type 0 };

    /// Asks for a task, which is then the pending one. Any other answer leaves none pending.
    fn claim(&mut self) -> Claimed
        requires room { claims self.old < 2 ^ 32 }
        ensures claims { claims self.new ≡ claims self.old + 1 }
        ensures tasks { tasks self.new ≡ tasks self.old + tasks_in result }
        ensures posts { posts self.new ≡ posts self.old }
        ensures pending { IsPending result (pending self.new) }
        ensures heard { heard self.new ≡ heard_at_claim result }
        ensures sound { heard self.old ≡ None → pending self.old ≡ None → sound self.old → sound self.new }
        ensures later { faults self.old ≤ faults self.new }
        ensures link { result ≡ Claimed.Refused BenchFault.Link → Rose (faults self.old) (faults self.new) }
        ensures fixed { fixed self.new ≡ fixed self.old };

    /// The case of the pending task.
    fn case(&self, task: Task) -> Case<'_>
        requires pending { (c : TestCase) × (pending self.now ≡ Some (task, c)) }
        ensures case { pending self.now ≡ Some (task, test_case result) }
        ensures can_run { CanRun (test_case result) };

    /// Posts the result of the pending task, which is pending no more, whatever the answer. Gives the farm's reply, and
    /// never `NoHost` or `NoMemory`: these are refusals.
    fn post(&mut self, done: Done) -> Result<Reply, BenchFault>
        requires value { (c : TestCase) × (pending self.old ≡ Some (done.task, c)) × (done.kind ≡ case_value c) }
        ensures claims { claims self.new ≡ claims self.old }
        ensures tasks { tasks self.new ≡ tasks self.old }
        ensures posts { posts self.new ≡ posts self.old + 1 }
        ensures pending { pending self.new ≡ None }
        ensures heard { heard self.new ≡ heard_at_post result }
        ensures sound { heard self.old ≡ None → sound self.old → sound self.new }
        ensures later { faults self.old ≤ faults self.new }
        ensures link { result ≡ Err BenchFault.Link → Rose (faults self.old) (faults self.new) }
        ensures no_host { (name : List ℕ) → result ≢ Ok (replies.NoHost name) }
        ensures no_memory { result ≢ Ok replies.NoMemory }
        ensures fixed { fixed self.new ≡ fixed self.old };
}
