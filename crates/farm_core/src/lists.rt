ghost use Rattle.std.specs.Prelude.{◌≡◌, ◌+◌, ◌++◌, ◌<◌, ◌≤◌, All, IfOk, IsTrue, fold, length, map, vec_len, vec_capacity};
ghost use Rattle.farm_model.specs.Limits.{max_judgings, max_tests};
ghost use Rattle.farm_model.specs.Judge.{add_judgings, drop_judging};
ghost use Rattle.farm_model.specs.Numbered.{item_of};
ghost use Rattle.farm_model.specs.Rejudgings.{new_judgings};
ghost use Rattle.farm_model.specs.State.{current_of};
ghost use Rattle.farm_model.specs.Changes.{cells_of_item, judging_again, details_for, with_current};
ghost use Rattle.judging_core.specs.JudgeValue.{in_state, starts_with, with_judging};
ghost use Rattle.farm_core.specs.FarmShape.{AreShort, HasJudging, HasSubmission};

use crate::modes::mode_of_one;
use crate::places::cells_for;
use farm_kinds::{Class, NoMemory, Numbers};
use farm_model::{JudgingDetails, Member, Problem, Submission, item_of};
use judging_core::Judge;
use std::alloc::Global;

/// The current judging of each submission of the list.
pub fn currents_of(
    alloc: Global,
    submissions: &[Submission],
    list: &[u32],
) -> Result<Vec<u32>, NoMemory>
    ensures { IfOk result (λ olds. olds.items ≡ map (current_of submissions.now) list.now) }
{
    let mut olds = Vec::new(alloc);
    olds.reserve(list.len())?;
    for submission in list {
        olds.push_reserved(current_of(submissions, *submission));
    }
    Ok(olds)
}

/// The current judging of a submission, or 0 where no submission has the number.
fn current_of(submissions: &[Submission], submission: u32) -> u32
    ensures { result ≡ current_of submissions.now submission }
{
    match item_of(submissions, submission) {
        Some(submission) => submission.current,
        None => 0,
    }
}

/// How many cells a new judging of each submission of the list has.
pub fn cells_of(
    alloc: Global,
    problems: &[Problem],
    submissions: &[Submission],
    list: &[u32],
) -> Result<Numbers, NoMemory>
    requires { AreShort problems.now }
    ensures cells { IfOk result (λ tests. tests ≡ map (λ n. cells_of_item problems.now (item_of submissions.now n)) list.now) }
    ensures count { IfOk result (λ tests. length tests ≡ length list.now) }
    ensures short { IfOk result (λ tests. All (λ n. n ≤ max_tests) tests) }
{
    let mut tests = Vec::new(alloc);
    tests.reserve(list.len())?;
    for submission in list {
        tests.push_reserved(cells_of_one(problems, submissions, *submission));
    }
    Ok(Numbers::from_vec(tests))
}

/// How many cells a new judging of the submission has.
fn cells_of_one(problems: &[Problem], submissions: &[Submission], submission: u32) -> u32
    requires { AreShort problems.now }
    ensures cells { result ≡ cells_of_item problems.now (item_of submissions.now submission) }
    ensures short { result ≤ max_tests }
{
    match item_of(submissions, submission) {
        Some(submission) => cells_for(problems, submission.problem, submission.broken) as u32,
        None => 0,
    }
}

/// Adds a judging of each submission of the list, for which there is room.
pub fn add_judgings(
    judge: &mut Judge,
    problems: &[Problem],
    submissions: &[Submission],
    list: &[u32],
)
    requires reserved { judge.old.reserved ≡ map (λ n. cells_of_item problems.now (item_of submissions.now n)) list.now }
    requires few { length judge.old.state.judgings + length list.now ≤ max_judgings }
    requires short { AreShort problems.now }
    ensures state { judge.new.state ≡ add_judgings judge.old.state (map (λ n. judging_again problems.now (item_of submissions.now n)) list.now) }
    ensures count { length judge.new.state.judgings ≡ length judge.old.state.judgings + length list.now }
    ensures hosts { judge.new.hosts ≡ judge.old.hosts }
{
    for submission in list {
        let tests = cells_of_one(problems, submissions, *submission) as u16;
        let mode = mode_of_one(problems, submissions, *submission);
        judge.add_reserved(Class::Low, tests, mode, true);
    }
}

/// Adds the details of judgings that belong to the rejudging of this number, one for each submission of the
/// list, for which there is room.
pub fn add_details(details: &mut Vec<JudgingDetails>, rejudging: u32, list: &[u32])
    requires { vec_len details.old + length list.now ≤ vec_capacity details.old }
    ensures { details.new.items ≡ details.old.items ++ details_for rejudging list.now }
{
    for submission in list {
        details.push_reserved(JudgingDetails {
            submission: *submission,
            rejudging: Some(rejudging),
            verified: false,
        });
    }
}

/// Makes the new judging of each member the current one of its submission.
pub fn make_current(submissions: &mut [Submission], members: &[Member])
    requires { All (HasSubmission (length submissions.old)) members.now }
    ensures { submissions.new ≡ fold with_current submissions.old members.now }
{
    for member in members {
        make_current_of(submissions, member);
    }
}

/// Makes the new judging of the member the current one of its submission.
fn make_current_of(submissions: &mut [Submission], member: &Member)
    requires { HasSubmission (length submissions.old) member.now }
    ensures { submissions.new ≡ with_current submissions.old member.now }
{
    submissions[member.submission as usize - 1].current = member.new;
}

/// Drops the new judging of each member.
pub fn drop_judgings(judge: &mut Judge, members: &[Member])
    requires { All (HasJudging (length judge.old.state.judgings)) members.now }
    ensures dropped { judge.new ≡ in_state judge.old (fold drop_judging judge.old.state (new_judgings members.now)) }
    ensures count { length judge.new.state.judgings ≡ length judge.old.state.judgings }
{
    for member in members {
        judge.drop_judging(member.new);
    }
}
