ghost use Rattle.std.specs.Prelude.{◌≡◌, length};
ghost use Rattle.farm_model.specs.State.{start, public_of};

mod asking;
mod hosts;
mod judged;
mod jury;
mod problems;
mod reading;
mod rejudgings;
mod submissions;
mod verifying;

use crate::names::Names;
use farm_kinds::{Answer, Mode, Modes};
use farm_model::{Host, JudgingDetails, Problem, Submission, item_of};
use farm_settings::Settings;
use judging_core::Judge;
use rejudge_book::RejudgeBook;
use std::alloc::Global;
use std::marker::Model;

/// All of a farm but its audit log: the problems, the hosts, the submissions with their judgings, and the
/// rejudgings. Contracts see a farm whose audit log is empty.
#[derive(Drop)]
pub struct ContestState {
    alloc: Global,
    judge: Judge,
    /// How far judgings are judged, but for those of the problems in `modes`.
    mode: Mode,
    modes: Modes,
    verification: bool,
    problems: Vec<Problem>,
    /// The names of the problems, in their order.
    problem_names: Names,
    hosts: Vec<Host>,
    /// The names of the hosts, in their order.
    host_names: Names,
    submissions: Vec<Submission>,
    /// One for each judging.
    details: Vec<JudgingDetails>,
    book: RejudgeBook,
}

impl Model for ContestState {
    ghost use Rattle.farm_model.specs.State.{State};

    ghost Value = { State };

    ghost use Rattle.farm_core.specs.ContestLayout.{contest_value, IsContestLayout};

    ghost view = { contest_value };

    ghost invariant = { IsContestLayout };
}

impl ContestState {
    /// A contest of nothing, with these settings.
    pub fn new(alloc: Global, settings: Settings) -> ContestState
        ensures { result ≡ start settings }
    {
        ContestState {
            alloc,
            judge: Judge::new(alloc, settings.rule(), settings.lease()),
            mode: settings.mode(),
            verification: settings.verification(),
            modes: settings.into_modes(),
            problems: Vec::new(alloc),
            problem_names: Names::new(alloc),
            hosts: Vec::new(alloc),
            host_names: Names::new(alloc),
            submissions: Vec::new(alloc),
            details: Vec::new(alloc),
            book: RejudgeBook::new(alloc),
        }
    }

    /// How many submissions there are.
    pub fn submissions(&self) -> u32
        ensures { result ≡ length self.now.submissions }
    {
        self.submissions.len() as u32
    }

    /// What the public sees of a submission. None where no submission has the number.
    pub fn public(&self, submission: u32) -> Option<Answer>
        ensures { result ≡ public_of self.now submission }
    {
        let submission = item_of(&self.submissions, submission)?;
        Some(self.public_answer(submission.current))
    }
}
