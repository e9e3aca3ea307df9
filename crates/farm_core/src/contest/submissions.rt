ghost use Rattle.std.specs.Prelude.{◌≡◌, ◌+◌, ◌<◌, length, IfOk, OnErr};
ghost use Rattle.farm_kinds.specs.declared.events.Event.TheVariants as events;
ghost use Rattle.farm_model.specs.Limits.{max_judgings, max_submissions};
ghost use Rattle.farm_model.specs.Changes.{submitted};
ghost use Rattle.farm_model.specs.Farm.{Stepped};

use super::ContestState;
use crate::modes::{asked_for, mode_for};
use crate::places::cells_for;
use farm_kinds::{Class, MAX_JUDGINGS, MAX_SUBMISSIONS, Name, NoMemory, Reply};
use farm_model::{JudgingDetails, Submission};

impl ContestState {
    /// A submission to a problem, with its judging. At `NoMemory` nothing changes.
    pub fn submit(&mut self, problem: Name, class: Class, broken: bool) -> Reply
        ensures { Stepped self.old (events.Submit problem class broken) self.new result }
    {
        let Some(place) = self.problem_place(&problem) else {
            return Reply::NoProblem { name: problem };
        };
        if self.submissions.len() >= MAX_SUBMISSIONS as usize {
            return Reply::Full {
                limit: MAX_SUBMISSIONS,
            };
        }
        if self.judge.judgings() >= MAX_JUDGINGS as usize {
            return Reply::Full {
                limit: MAX_JUDGINGS,
            };
        }
        let Ok(judging) = self.add_submission(place as u32 + 1, class, broken) else {
            return Reply::NoMemory;
        };
        let submission = self.submissions.len() as u32;
        Reply::Submitted {
            submission,
            judging,
        }
    }

    /// Adds a submission to a problem, with its judging, whose number is answered.
    fn add_submission(&mut self, problem: u32, class: Class, broken: bool) -> Result<u32, NoMemory>
        requires room { length self.old.submissions < max_submissions }
        requires few { length self.old.judge.judgings < max_judgings }
        ensures number { IfOk result (λ j. j ≡ length self.old.judge.judgings + 1) }
        ensures added { IfOk result (λ j. self.new ≡ submitted self.old problem class broken) }
        ensures unchanged { OnErr result (self.new ≡ self.old) }
    {
        self.submissions.reserve(1)?;
        self.details.reserve(1)?;
        self.book.reserve_submission()?;
        let cells = cells_for(&self.problems, problem, broken);
        let mode = mode_for(&self.problems, problem);
        let asked = asked_for(&self.problems, problem);
        let current = self.judge.add_judging(class, cells, mode, asked)?;
        self.submissions.push_reserved(Submission {
            problem,
            broken,
            current,
        });
        self.details.push_reserved(JudgingDetails {
            submission: self.submissions.len() as u32,
            rejudging: None,
            verified: false,
        });
        self.book.add_reserved_submission();
        Ok(current)
    }
}
