ghost use Rattle.std.specs.Prelude.{◌≡◌, IfOk, IfErr};
ghost use Rattle.case_run.specs.Cases.{CanRun, test_case};
ghost use Rattle.case_run.specs.Values.{case_value};
ghost use Rattle.judgehost.specs.Runners.{RunsCases, MayWantMemory};

use case_run::Case;
use farm_kinds::{Kind, NoMemory, Task};

/// A closure that gives the result of a case.
pub(crate) type Run = Box<dyn Fn(&Case<'_>) -> Result<Kind, NoMemory> + Sync>;

/// What runs cases: a closure that is known to give the value of each case that it is called on, or that no memory was
/// left.
#[derive(Drop)]
pub struct Runner {
    run: Run,
    ghost runs: { RunsCases (Run.pre run) (Run.post run) },
}

impl Runner {
    /// A runner of this closure.
    pub fn new(run: Box<dyn Fn(&Case<'_>) -> Result<Kind, NoMemory> + Sync>) -> Runner
        requires runs_cases { RunsCases (pre run) (post run) }
        ensures run { result.run ≡ run }
    {
        Runner { run }
    }

    /// Runs the case of a task. `NoMemory` is the closure's own answer, and says nothing of the case.
    pub fn run(&self, task: Task, case: &Case<'_>) -> Result<Done, NoMemory>
        requires can_run { CanRun (test_case case.now) }
        ensures task { IfOk result (λ done. done.task ≡ task) }
        ensures value { IfOk result (λ done. done.kind ≡ case_value (test_case case.now)) }
        ensures no_memory { IfErr result (λ _. MayWantMemory (Run.post self.now.run) (test_case case.now)) }
    {
        let kind = (self.run)(case)?;
        Ok(Done { task, kind })
    }
}

/// A task that was run, and its result. Only [`Runner::run`] makes one.
#[derive(Debug, Drop)]
pub struct Done {
    task: Task,
    kind: Kind,
}

impl Done {
    /// The task.
    pub fn task(&self) -> Task
        ensures { result ≡ self.now.task }
    {
        self.task
    }

    /// Its result.
    pub fn kind(&self) -> Kind
        ensures { result ≡ self.now.kind }
    {
        self.kind
    }
}
