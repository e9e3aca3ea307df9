ghost use Rattle.std.specs.Prelude.{◌≡◌, [], Option, IfOk, IfSome, IfNone, IsSome, None, true, false, is_some};
ghost use Rattle.farm_kinds.specs.declared.outcomes.Task.{Task as TaskValue};
ghost use Rattle.farm_model.specs.Judge.{first_open};
ghost use Rattle.farm_model.specs.State.{SettingsValue, up_number};
ghost use Rattle.case_run.specs.Cases.{TestCase};
ghost use Rattle.parallel_judge.specs.Noting.{StillKeeps};
ghost use Rattle.parallel_judge.specs.Working.{IsReady, IsHonestRun, IsTurned, with_task, row_lengths};

use crate::noted::NotedFarm;
use case_run::{Cases, run_case};
use farm_kinds::{Event, Name, NoMemory, Reply, Task};
use people::Person;
use std::alloc::Global;

/// Works off the open tasks as one host: claims a task, runs it and enters its result, until none is open.
pub(crate) fn finish<C: Cases, P: Person>(
    alloc: Global,
    noted: &mut NotedFarm,
    cases: &C,
    host: Name,
    person: &mut P,
) -> Result<(), NoMemory>
    requires { IsReady (C.case_at cases.now) host noted.old.farm }
    ensures ready { IfOk result (λ _. IsReady (C.case_at cases.now) host noted.new.farm) }
    ensures ended { IfOk result (λ _. first_open noted.new.farm.judge ≡ None) }
    ensures honest { (settings : SettingsValue) → IsHonestRun settings (C.case_at cases.now) noted.old.farm → IfOk result (λ _. IsHonestRun settings (C.case_at cases.now) noted.new.farm) }
    ensures lengths { IfOk result (λ _. row_lengths noted.new.farm ≡ row_lengths noted.old.farm) }
    ensures journal { StillKeeps (C.case_at cases.now) noted.old noted.new }
    ensures kept { is_some noted.new.history ≡ is_some noted.old.history }
{
    while judge_next(alloc, noted, cases, host, person)? {}
    Ok(())
}

/// Claims one task, runs it and enters its result. False where no task is open.
fn judge_next<C: Cases, P: Person>(
    alloc: Global,
    noted: &mut NotedFarm,
    cases: &C,
    host: Name,
    person: &mut P,
) -> Result<bool, NoMemory>
    requires { IsReady (C.case_at cases.now) host noted.old.farm }
    ensures turned { IfOk result (λ more. more ≡ true → IsTurned (C.case_at cases.now) host noted.old.farm noted.new.farm) }
    ensures ended { IfOk result (λ more. more ≡ false → (noted.new.farm ≡ noted.old.farm) × (first_open noted.old.farm.judge ≡ None)) }
    ensures journal { StillKeeps (C.case_at cases.now) noted.old noted.new }
    ensures kept { is_some noted.new.history ≡ is_some noted.old.history }
{
    let Some(task) = claim(noted, host)? else {
        return Ok(false);
    };
    // Each task of a farm that is ready has a case.
    let Some(case) = cases.case_of(task) else {
        return Ok(false);
    };
    person.runs(task);
    let kind = run_case(alloc, &case)?;
    noted.enter(&Event::Result {
        host,
        judging: task.judging,
        test: task.test as u32,
        kind,
    })?;
    Ok(true)
}

/// Claims the first open task. None where none is open.
fn claim(noted: &mut NotedFarm, host: Name) -> Result<Option<Task>, NoMemory>
    requires up { IsSome (up_number noted.old.farm.hosts host) }
    requires free { noted.old.farm.judge.leases ≡ [] }
    ensures first { IfOk result (λ task. task ≡ first_open noted.old.farm.judge) }
    ensures none { IfOk result (λ task. IfNone task (noted.new.farm ≡ noted.old.farm)) }
    ensures some { IfOk result (λ task. IfSome task (λ task. noted.new.farm ≡ with_task noted.old.farm host task)) }
    ensures journal { (case_at : TaskValue → Option TestCase) → StillKeeps case_at noted.old noted.new }
    ensures kept { is_some noted.new.history ≡ is_some noted.old.history }
{
    match noted.step(&Event::Claim { host }) {
        Reply::NoMemory => Err(NoMemory),
        Reply::Handed { task, .. } => Ok(Some(task)),
        _ => Ok(None),
    }
}
