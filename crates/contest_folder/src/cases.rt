ghost use Rattle.std.specs.Prelude.{◌≡◌, ◌≤◌, ℕ, List, length, option_map, option_and_then, true, All, Some, None, IfSome, IfNone};
ghost use Rattle.std.specs.List.{slice_get};
ghost use Rattle.package_folder.specs.Package.{IsPackage};
ghost use Rattle.package_folder.specs.Order.{IsRising};
ghost use Rattle.case_run.specs.Cases.{CanRun, CanCheck, test_case, checking_of};
ghost use Rattle.case_run.specs.Images.{is_image};
ghost use Rattle.contest_folder.specs.declared.roster.Problem.{Problem};
ghost use Rattle.contest_folder.specs.RosterShape.{names_of};
ghost use Rattle.contest_folder.specs.JudgingCases.{case_at, case_for, case_in, case_with, checking_by, numbered};

use crate::roster::{Problem, Roster, Submission, problem_named};
use case_run::{Case, Cases, Check};
use farm_kinds::Task;
use package_folder::{Checker, Package};

impl Cases for Roster {
    ghost case_at = { case_at };

    /// Judging j is that of submission j. None where there is no such submission, it is broken, or its problem has no
    /// such test.
    fn case_of(&self, task: Task) -> Option<Case<'_>> {
        let submission = self.submission_of(task.judging)?;
        case_for(self.problem_list(), submission, task.test)
    }
}

/// The case of a submission and a test of its problem.
fn case_for<'a>(problems: &'a [Problem], submission: &'a Submission, test: u16) -> Option<Case<'a>>
    requires rising { IsRising (names_of problems.now) }
    requires packages { All (λ (problem : Problem). IsPackage problem.contents) problems.now }
    ensures some { IfSome result (λ c. case_for problems.now test submission.now ≡ Some (test_case c)) }
    ensures none { IfNone result (case_for problems.now test submission.now ≡ None) }
    ensures can_run { IfSome result (λ c. CanRun (test_case c)) }
{
    if !submission.image.is_image() {
        return None;
    }
    let problem = problem_named(problems, submission.problem.as_bytes())?;
    case_in(submission.image.as_slice(), &problem.contents, test)
}

/// The case of an image and the test of this number, from 1.
fn case_in<'a>(image: &'a [u8], problem: &'a Package, test: u16) -> Option<Case<'a>>
    requires image { is_image image.now ≡ true }
    requires problem { IsPackage problem.now }
    ensures some { IfSome result (λ c. option_map (case_with image.now problem.now) (numbered problem.now.tests test) ≡ Some (test_case c)) }
    ensures none { IfNone result (option_map (case_with image.now problem.now) (numbered problem.now.tests test) ≡ None) }
    ensures can_run { IfSome result (λ c. CanRun (test_case c)) }
{
    let place = (test as usize).checked_sub(1)?;
    let test = problem.tests.as_slice().get(place)?;
    Some(Case {
        image,
        input: test.input.as_slice(),
        answer: test.answer.as_slice(),
        check: check_by(&problem.check),
        limits: problem.limits,
    })
}

/// How outputs are checked.
fn check_by(check: &Checker) -> Check<'_>
    ensures { checking_of result ≡ checking_by check.now }
{
    match check {
        Checker::Default(flags) => Check::Default(*flags),
        Checker::Custom { image, flags } => Check::Custom {
            image: image.as_slice(),
            flags: flags.as_slice(),
        },
    }
}
