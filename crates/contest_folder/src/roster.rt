ghost use Rattle.std.specs.Prelude.{◌≡◌, ◌≤◌, ◌<◌, ◌-◌, ℕ, List, length, map, All, Contains, IfSome, Some, option_map, string_bytes, not};
ghost use Rattle.std.specs.List.{slice_get};
ghost use Rattle.package_folder.specs.Order.{compare_bytes, IsRising};
ghost use Rattle.package_folder.specs.Package.{IsPackage};
ghost use Rattle.contest_folder.specs.declared.roster.Problem.{Problem};
ghost use Rattle.contest_folder.specs.declared.roster.Submission.{Submission};
ghost use Rattle.case_run.specs.Images.{is_image};
ghost use Rattle.contest_folder.specs.RosterShape.{names_of, problem_limit, submission_limit, problem_named, IsPlaced, IsContest};
ghost use Rattle.contest_folder.specs.JudgingCases.{numbered};

use crate::submitted::SubmittedFile;
use farm_kinds::Name;
use farm_settings::Settings;
use package_folder::Package;
use std::cmp::Ordering;
use std::marker::Model;

/// A problem of a contest.
#[derive(Debug, Drop)]
pub(crate) struct Problem {
    pub name: Name,
    pub contents: Package,
}

/// A submission of a contest.
#[derive(Debug, Drop)]
pub(crate) struct Submission {
    pub team: Name,
    pub problem: Name,
    /// Its file, or an empty one where that has too many bytes.
    pub image: SubmittedFile,
}

/// What a table says of a problem.
#[derive(Clone, Copy, Debug)]
pub struct RosterProblem {
    pub name: Name,
    /// How many tests it has: from 1 to 1,000.
    pub tests: u16,
}

/// What a table says of a submission.
#[derive(Clone, Copy, Debug)]
pub struct RosterSubmission {
    pub team: Name,
    pub problem: Name,
    /// Whether its file is no image of a program.
    pub broken: bool,
}

/// A contest as it is read: its settings, its problems in the order of their names, and its submissions.
///
/// There are at most 1,000 problems and 100,000 submissions. Each problem is a package as `read_package` gives it, and
/// each submission is one to a problem that is there.
#[derive(Debug, Drop)]
pub struct Roster {
    settings: Settings,
    problems: Vec<Problem>,
    submissions: Vec<Submission>,
}

impl Model for Roster {
    ghost use Rattle.contest_folder.specs.RosterValue.{RosterValue};

    ghost Value = { RosterValue };

    ghost use Rattle.contest_folder.specs.RosterShape.{roster_value, IsRoster};

    ghost view = { roster_value };

    ghost invariant = { IsRoster };
}

impl Roster {
    /// The roster of these.
    pub(crate) fn new(
        settings: Settings,
        problems: Vec<Problem>,
        submissions: Vec<Submission>,
    ) -> Roster
        requires few_problems { length problems.items ≤ problem_limit }
        requires rising { IsRising (names_of problems.items) }
        requires packages { All (λ (problem : Problem). IsPackage problem.contents) problems.items }
        requires few_submissions { length submissions.items ≤ submission_limit }
        requires placed { All (IsPlaced problems.items) submissions.items }
        ensures { result ≡ record { settings = settings; problems = problems.items; submissions = submissions.items } }
    {
        Roster {
            settings,
            problems,
            submissions,
        }
    }

    /// The settings. What they are the settings of is a contest: so much is known of each roster.
    pub fn settings(&self) -> &Settings
        ensures settings { result.now ≡ self.now.settings }
        ensures contest { IsContest self.now }
    {
        &self.settings
    }

    /// How many problems there are.
    pub fn problems(&self) -> u32
        ensures { result ≡ length self.now.problems }
    {
        self.problems.len() as u32
    }

    /// How many submissions there are.
    pub fn submissions(&self) -> u32
        ensures { result ≡ length self.now.submissions }
    {
        self.submissions.len() as u32
    }

    /// The problems in the order of their names.
    pub(crate) fn problem_list(&self) -> &[Problem]
        ensures problems { result.now ≡ self.now.problems }
        ensures rising { IsRising (names_of result.now) }
        ensures packages { All (λ (problem : Problem). IsPackage problem.contents) result.now }
    {
        self.problems.as_slice()
    }

    /// The submission of this number, from 1. None where there is none.
    pub(crate) fn submission_of(&self, number: u32) -> Option<&Submission>
        ensures { option_map (λ s. s.now) result ≡ numbered self.now.submissions number }
    {
        let place = (number as usize).checked_sub(1)?;
        self.submissions.as_slice().get(place)
    }

    /// The problem of this number, from 1.
    pub fn problem(&self, number: u32) -> RosterProblem
        requires some { 1 ≤ number }
        requires within { number ≤ length self.now.problems }
        ensures { option_map (λ (p : Problem). record { name = p.name; tests = length p.contents.tests }) (slice_get self.now.problems (number - 1)) ≡ Some result }
    {
        let problem = &self.problems[number as usize - 1];
        RosterProblem {
            name: problem.name,
            tests: problem.contents.tests.as_slice().len() as u16,
        }
    }

    /// The submission of this number, from 1.
    pub fn submission(&self, number: u32) -> RosterSubmission
        requires some { 1 ≤ number }
        requires within { number ≤ length self.now.submissions }
        ensures { option_map (λ (s : Submission). record { team = s.team; problem = s.problem; broken = not (is_image s.image) }) (slice_get self.now.submissions (number - 1)) ≡ Some result }
    {
        let submission = &self.submissions[number as usize - 1];
        RosterSubmission {
            team: submission.team,
            problem: submission.problem,
            broken: !submission.image.is_image(),
        }
    }
}

/// The problem of this name among problems in the order of their names.
pub(crate) fn problem_named<'a>(problems: &'a [Problem], name: &[u8]) -> Option<&'a Problem>
    requires { IsRising (names_of problems.now) }
    ensures problem { option_map (λ p. p.now) result ≡ problem_named problems.now name.now }
    ensures among { IfSome result (λ p. Contains problems.now p.now) }
{
    match problems.binary_search_by(|problem| compare(problem, name)) {
        Ok(at) => Some(&problems[at]),
        Err(_) => None,
    }
}

/// How the problem's name stands to this one in the order of bytes.
fn compare(problem: &Problem, name: &[u8]) -> Ordering
    ensures { result ≡ compare_bytes problem.now.name name.now }
{
    problem.name.as_bytes().cmp(name)
}
