ghost use Rattle.std.specs.Prelude.{◌≡◌, IfOk};
ghost use Rattle.contest_page.specs.ViewValue.{ViewValue};
ghost use Rattle.contest_page.specs.Views.{contest_text};

use crate::json::contest_json;
use farm_kinds::{Name, NoMemory, Text};
use std::alloc::Global;
use std::marker::Model;

/// Whose a submission is, and to which problem.
#[derive(Clone, Copy, Debug)]
pub struct SubmissionRow {
    pub team: Name,
    pub problem: Name,
}

/// What people are told of a contest: the names of its problems, and of each submission, in order, whose it is and to which
/// problem. Its JSON is made once.
#[derive(Drop)]
pub struct ContestView {
    problems: Vec<Name>,
    entries: Vec<SubmissionRow>,
    json: Text,
}

impl Model for ContestView {
    ghost use Rattle.contest_page.specs.ViewValue.{ViewValue};

    ghost Value = { ViewValue };

    ghost use Rattle.contest_page.specs.ViewShape.{view_value, IsViewShape};

    ghost view = { view_value };

    ghost invariant = { IsViewShape };
}

impl ContestView {
    /// The view of these problems and submissions.
    pub fn new(
        alloc: Global,
        problems: Vec<Name>,
        entries: Vec<SubmissionRow>,
    ) -> Result<ContestView, NoMemory>
        ensures { IfOk result (λ view. view ≡ record { problems = problems.items; entries = entries.items }) }
    {
        let json = contest_json(alloc, problems.as_slice(), entries.as_slice())?;
        Ok(ContestView {
            problems,
            entries,
            json,
        })
    }

    /// The submissions, in order.
    pub(crate) fn entries(&self) -> &[SubmissionRow]
        ensures { result.now ≡ self.now.entries }
    {
        self.entries.as_slice()
    }

    /// The names as JSON.
    pub fn json(&self) -> &[u8]
        ensures { result.now ≡ contest_text self.now }
    {
        self.json.as_slice()
    }
}

/// What has a view of a contest to show.
pub trait Shows {
    /// What it shows.
    ghost shown: { Self → ViewValue };

    /// The view.
    fn view(&self) -> &ContestView
        ensures { result.now ≡ shown self.now };
}
