ghost use Rattle.std.specs.Prelude.{◌≡◌, true};
ghost use Rattle.std.specs.Option.{option_map_or};
ghost use Rattle.farm_model.specs.Changes.{mode_named, judged_mode, is_asked_at_once, asked_named, mode_for, mode_of_item, asked_for};
ghost use Rattle.farm_model.specs.Numbered.{item_of};

use farm_kinds::{Mode, Modes, Name, NamedMode, ProblemMode};
use farm_model::{Problem, Submission, item_of};

/// The mode that the first entry of the name gives a problem.
pub fn mode_named(modes: &[NamedMode], name: &Name) -> Option<ProblemMode>
    ensures { result ≡ mode_named modes.now name.now }
{
    for entry in modes {
        if entry.name.as_bytes() == name.as_bytes() {
            return Some(entry.mode);
        }
    }
    None
}

/// How far judgings of a problem are judged that has a mode of its own, or none.
pub fn judged_mode(named: Option<ProblemMode>, other: Mode) -> Mode
    ensures { result ≡ option_map_or judged_mode named other }
{
    match named {
        Some(ProblemMode::Full) => Mode::Full,
        Some(ProblemMode::Lazy | ProblemMode::OnDemand) => Mode::Lazy,
        None => other,
    }
}

/// Whether judgings of a problem that has a mode of its own, or none, are asked for from the start.
pub fn is_asked_at_once(named: Option<ProblemMode>) -> bool
    ensures { result ≡ option_map_or is_asked_at_once named true }
{
    match named {
        Some(ProblemMode::OnDemand) => false,
        Some(ProblemMode::Lazy | ProblemMode::Full) | None => true,
    }
}

/// Whether judgings of the problem of this name are asked for from the start.
pub fn is_asked_for(modes: &Modes, name: &Name) -> bool
    ensures { result ≡ asked_named modes.now name.now }
{
    is_asked_at_once(mode_named(modes.as_slice(), name))
}

/// How far judgings of the problem are judged.
pub fn mode_for(problems: &[Problem], problem: u32) -> Mode
    ensures { result ≡ mode_for problems.now problem }
{
    match item_of(problems, problem) {
        Some(problem) => problem.mode,
        None => Mode::Lazy,
    }
}

/// Whether a new judging of the problem is asked for at once.
pub fn asked_for(problems: &[Problem], problem: u32) -> bool
    ensures { result ≡ asked_for problems.now problem }
{
    match item_of(problems, problem) {
        Some(problem) => problem.asked,
        None => true,
    }
}

/// How far a new judging of the submission is judged.
pub fn mode_of_one(problems: &[Problem], submissions: &[Submission], submission: u32) -> Mode
    ensures { result ≡ mode_of_item problems.now (item_of submissions.now submission) }
{
    match item_of(submissions, submission) {
        Some(submission) => mode_for(problems, submission.problem),
        None => Mode::Lazy,
    }
}
