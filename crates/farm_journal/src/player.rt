ghost use Rattle.farm_model.specs.State.{State};
ghost use Rattle.farm_model.specs.Farm.{Stepped};

use farm_core::Farm;
use farm_kinds::{Event, Reply};

/// What plays the events of a store: a farm, or whatever stands for one.
pub trait Player {
    /// The state of the farm.
    ghost state: { Self → State };

    /// Answers one event. One that is refused, and one for which no memory was left, changes nothing.
    fn step(&mut self, event: &Event) -> Reply
        ensures { Stepped (state self.old) event.now (state self.new) result };
}

impl Player for Farm {
    ghost state = { λ farm. farm };

    fn step(&mut self, event: &Event) -> Reply {
        Farm::step(self, event)
    }
}
