ghost use Rattle.std.specs.Prelude.{◌≡◌, map, IfOk};
ghost use Rattle.contest_folder.specs.declared.roster.Problem.{Problem};
ghost use Rattle.contest_folder.specs.JudgingCases.{case_at};
ghost use Rattle.contest_server.specs.Contest.{entry_of, view_of};

use case_run::{Case, Cases};
use contest_folder::Roster;
use contest_page::{ContestView, Shows, SubmissionRow};
use farm_kinds::{Name, NoMemory, Task};
use std::alloc::{AllocError, Global};

/// A contest, and the names of it that anybody is shown.
#[derive(Drop)]
pub(crate) struct Shown<'r> {
    roster: &'r Roster,
    view: ContestView,
}

impl<'r> Cases for Shown<'r> {
    ghost case_at = { λ shown task. case_at shown.roster.now task };

    fn case_of(&self, task: Task) -> Option<Case<'_>> {
        self.roster.case_of(task)
    }
}

impl<'r> Shows for Shown<'r> {
    ghost shown = { λ shown. shown.view };

    fn view(&self) -> &ContestView {
        &self.view
    }
}

impl<'r> Shown<'r> {
    /// A contest with its names.
    pub fn of(alloc: Global, roster: &'r Roster) -> Result<Shown<'r>, NoMemory>
        ensures roster { IfOk result (λ shown. shown.roster.now ≡ roster.now) }
        ensures view { IfOk result (λ shown. shown.view ≡ view_of roster.now) }
    {
        let problems = problem_names(alloc, roster)?;
        let entries = entries_of(alloc, roster)?;
        let view = ContestView::new(alloc, problems, entries)?;
        Ok(Shown { roster, view })
    }
}

/// The names of the problems, in order.
#[tactic(auto, using(crate::proofs::Names::one_problem_more))]
fn problem_names(alloc: Global, roster: &Roster) -> Result<Vec<Name>, AllocError>
    ensures { IfOk result (λ names. names.items ≡ map (λ (problem : Problem). problem.name) roster.now.problems) }
{
    let mut names = Vec::new(alloc);
    for i in 0..roster.problems() {
        names.push(roster.problem(i + 1).name)?;
    }
    Ok(names)
}

/// Whose the submissions are and to which problems, in order.
#[tactic(auto, using(crate::proofs::Names::one_entry_more))]
fn entries_of(alloc: Global, roster: &Roster) -> Result<Vec<SubmissionRow>, AllocError>
    ensures { IfOk result (λ entries. entries.items ≡ map entry_of roster.now.submissions) }
{
    let mut entries = Vec::new(alloc);
    for i in 0..roster.submissions() {
        let submission = roster.submission(i + 1);
        entries.push(SubmissionRow {
            team: submission.team,
            problem: submission.problem,
        })?;
    }
    Ok(entries)
}
