ghost use Rattle.std.specs.Prelude.{◌≡◌, None, IsSome, IfOk, IfSome, OnErr};
ghost use Rattle.farm_kinds.specs.Actors.{jury_actor};
ghost use Rattle.farm_model.specs.Refusals.{refusal_of};
ghost use Rattle.farm_model.specs.Changes.{accepted, logged};
ghost use Rattle.farm_core.specs.FarmShape.{HadMemory};

use super::ContestState;
use farm_kinds::{Event, NoMemory, Reply};

impl ContestState {
    /// Why an event of the jury is refused. Nothing changes.
    pub fn jury_refusal(&mut self, event: &Event) -> Option<Reply>
        requires { IsSome (jury_actor event.now) }
        ensures refusal { result ≡ refusal_of self.old event.now }
        ensures answers { IfSome result HadMemory }
        ensures unchanged { self.new ≡ self.old }
    {
        match event {
            Event::Problem { name, tests, .. } => self.problem_refusal(*name, *tests),
            Event::Replace { name, tests, .. } => self.replace_refusal(*name, *tests),
            Event::Rejudge { list, .. } => self.rejudge_refusal(list.as_slice()),
            Event::Apply { rejudging, .. } => self.apply_refusal(*rejudging),
            Event::Cancel { rejudging, .. } => self.close_refusal(*rejudging),
            Event::Verify { judging, .. } => self.verify_refusal(*judging),
            Event::Ask { judging, .. } => self.ask_refusal(*judging),
            // No other event is the jury's.
            _ => None,
        }
    }

    /// Does what an event of the jury asks, which is not refused, and gives its reply. At `NoMemory` nothing
    /// changes.
    pub fn change(&mut self, event: &Event) -> Result<Reply, NoMemory>
        requires jurys { IsSome (jury_actor event.now) }
        requires accepted { refusal_of self.old event.now ≡ None }
        ensures done { IfOk result (λ reply. accepted self.old event.now ≡ (logged self.new event.now, reply)) }
        ensures answers { IfOk result HadMemory }
        ensures unchanged { OnErr result (self.new ≡ self.old) }
    {
        match event {
            Event::Problem { name, tests, .. } => self.add_problem(*name, *tests),
            Event::Replace { name, tests, .. } => Ok(self.replace(*name, *tests)),
            Event::Rejudge { list, .. } => self.rejudge(list.as_slice()),
            Event::Apply { rejudging, .. } => Ok(self.apply(*rejudging)),
            Event::Cancel { rejudging, .. } => Ok(self.cancel(*rejudging)),
            Event::Verify { judging, .. } => Ok(self.verify(*judging)),
            Event::Ask { judging, .. } => Ok(self.ask(*judging)),
            // No other event is the jury's.
            _ => Err(NoMemory),
        }
    }
}
