ghost use Rattle.std.specs.Prelude.{◌≡◌, Option, Some, None, IfSome, IfNone};
ghost use Rattle.farm_kinds.specs.declared.outcomes.Task.{Task};
ghost use Rattle.case_run.specs.Cases.{TestCase, CanRun, test_case};

use default_validator::Flags;
use farm_kinds::{Limits, Task};

/// One test of one submission.
#[derive(Clone, Copy)]
pub struct Case<'a> {
    /// The submission's program.
    pub image: &'a [u8],
    /// What it reads as its standard input.
    pub input: &'a [u8],
    /// The judge's answer.
    pub answer: &'a [u8],
    /// How its output is checked.
    pub check: Check<'a>,
    /// What its run may use.
    pub limits: Limits,
}

/// How an output is checked.
#[derive(Clone, Copy)]
pub enum Check<'a> {
    /// By the default output validator with these flags.
    Default(Flags),
    /// By a program of the problem's own, a raw image, which is given the flags.
    Custom { image: &'a [u8], flags: &'a [u8] },
}

/// The tests that are to be run, each with its case.
pub trait Cases {
    /// The case of a task, where there is one.
    ghost case_at: { Self → Task → Option TestCase };

    /// The case of a task. None where the task is not one of these.
    fn case_of(&self, task: Task) -> Option<Case<'_>>
        ensures some { IfSome result (λ c. case_at self.now task ≡ Some (test_case c)) }
        ensures none { IfNone result (case_at self.now task ≡ None) }
        ensures can_run { IfSome result (λ c. CanRun (test_case c)) };
}

impl<C: Cases> Cases for &C {
    ghost case_at = { λ cases task. C.case_at cases.now task };

    fn case_of(&self, task: Task) -> Option<Case<'_>> {
        (**self).case_of(task)
    }
}
