ghost use Rattle.std.specs.Prelude.{◌≡◌, Option, IfOk, is_some};
ghost use Rattle.farm_kinds.specs.declared.outcomes.Task.{Task};
ghost use Rattle.farm_model.specs.Farm.{farm_step};
ghost use Rattle.case_run.specs.Cases.{TestCase};
ghost use Rattle.parallel_judge.specs.Journal.{IsJudgingEvent};
ghost use Rattle.parallel_judge.specs.Noting.{Notes, StillKeeps};

use farm_board::CallJournal;
use farm_core::Farm;
use farm_kinds::{Event, NoMemory, Reply};

/// The number of the caller in a journal, which is that of the opening pass.
const CALLER: u64 = 0;

/// A farm that the caller has to itself, and the journal of what was entered, where one is kept.
#[derive(Drop)]
pub struct NotedFarm {
    pub(crate) farm: Farm,
    pub(crate) history: Option<CallJournal>,
}

impl NotedFarm {
    /// Answers an event of the caller, and notes the call. Where memory runs out, nothing changes.
    pub(crate) fn step(&mut self, event: &Event) -> Reply
        ensures notes { Notes self.old self.new event.now result }
        ensures kept { is_some self.new.history ≡ is_some self.old.history }
    {
        match &mut self.history {
            Some(history) => history.note(&mut self.farm, CALLER, event),
            None => self.farm.step(event),
        }
    }

    /// Enters an event whose reply tells nothing that is not known.
    pub(crate) fn enter(&mut self, event: &Event) -> Result<(), NoMemory>
        ensures state { IfOk result (λ _. self.new.farm ≡ (farm_step self.old.farm event.now).0) }
        ensures journal { (case_at : Task → Option TestCase) → IsJudgingEvent case_at event.now → StillKeeps case_at self.old self.new }
        ensures kept { is_some self.new.history ≡ is_some self.old.history }
    {
        match self.step(event) {
            Reply::NoMemory => Err(NoMemory),
            _ => Ok(()),
        }
    }
}
