ghost use Rattle.std.specs.Prelude.{◌≡◌};
ghost use Rattle.case_run.specs.Cases.{CanRun, test_case, checking_of};
ghost use Rattle.wire_job.specs.Checks.{own_checking};

use case_run::{Case, Check};
use default_validator::Flags;
use farm_kinds::{Limits, Task, Text};
use std::marker::Model;

/// How an output is checked, with what it takes for that.
#[derive(Debug, Drop)]
pub enum OwnCheck {
    /// By the default output validator with these flags.
    Default(Flags),
    /// By a program of the problem's own, a raw image, which is given the flags.
    Custom { image: Text, flags: Text },
}

/// A task and its case, which can be run.
#[derive(Debug, Drop)]
pub struct Job {
    task: Task,
    image: Text,
    input: Text,
    answer: Text,
    check: OwnCheck,
    limits: Limits,
}

impl Model for Job {
    ghost use Rattle.wire_job.specs.JobValue.{JobValue};

    ghost Value = { JobValue };

    ghost use Rattle.wire_job.specs.JobShape.{job_value, IsJobShape};

    ghost view = { job_value };

    ghost invariant = { IsJobShape };
}

impl Job {
    /// A job of these parts, which can be run.
    pub fn new(
        task: Task,
        image: Text,
        input: Text,
        answer: Text,
        check: OwnCheck,
        limits: Limits,
    ) -> Job
        requires { CanRun (record { image = image; input = input; answer = answer; check = own_checking check; limits = limits }) }
        ensures { result ≡ record { task = task; case = record { image = image; input = input; answer = answer; check = own_checking check; limits = limits } } }
    {
        Job {
            task,
            image,
            input,
            answer,
            check,
            limits,
        }
    }

    /// The task.
    pub fn task(&self) -> Task
        ensures { result ≡ self.now.task }
    {
        self.task
    }

    /// The image of the submission. All else is let go.
    pub fn into_image(self) -> Text
        ensures { result ≡ self.case.image }
    {
        self.image
    }

    /// The task's case.
    pub fn case(&self) -> Case<'_>
        ensures case { test_case result ≡ self.now.case }
        ensures can_run { CanRun (test_case result) }
    {
        Case {
            image: self.image.as_slice(),
            input: self.input.as_slice(),
            answer: self.answer.as_slice(),
            check: check_of(&self.check),
            limits: self.limits,
        }
    }
}

/// The check, lent.
fn check_of(check: &OwnCheck) -> Check<'_>
    ensures { checking_of result ≡ own_checking check.now }
{
    match check {
        OwnCheck::Default(flags) => Check::Default(*flags),
        OwnCheck::Custom { image, flags } => Check::Custom {
            image: image.as_slice(),
            flags: flags.as_slice(),
        },
    }
}
