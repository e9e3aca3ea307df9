//! What keeps the events of a session.
ghost use Rattle.std.specs.Prelude.{◌≡◌, ◌<◌, ◌^◌, ◌∷◌, [], ℕ, List, length, Ok, IsErrOf, OnOk};
ghost use Rattle.farm_kinds.specs.declared.events.Event.{Event};
ghost use Rattle.farm_model.specs.State.{State};
ghost use Rattle.farm_model.specs.Replay.{state_after, reply_to};
ghost use Rattle.farm_model.specs.Texts.{event_text};
ghost use Rattle.script_session.specs.Keeping.{KeepsOn, SettlesOn};

use farm_kinds::{Event, NoMemory, Reply};

/// Why an event was not kept.
#[derive(Clone, Copy, Debug, PartialEq, Eq)]
pub(crate) enum KeepFault {
    /// The disk failed.
    Disk,
    /// The event has no room, and would end at the offset `end`.
    Full { end: u64 },
    /// No memory was left.
    NoMemory,
}

/// What keeps the events of a session, on a device of its own. Events are given to it behind their steps, and settled
/// before the replies to them are put.
pub(crate) trait Keeper<D> {
    /// It can keep an event.
    ghost ready: { Self → D → Type 0 };
    /// Since it was the first of these it was given, from a state on, all of the second events; the first of them are
    /// settled.
    ghost kept: { Self → D → Self → D → State → List Event → List Event → Type 0 };
    /// Since then it failed in the second events, of which the first ones are settled.
    ghost lost: { Self → D → Self → D → State → List Event → List Event → Type 0 };
    /// One of the events has no room since then.
    ghost full: { Self → D → State → List Event → ℕ → Type 0 };

    /// Keeps an event with this reply, if it is to be kept.
    fn keep(&mut self, device: &mut D, event: &Event, reply: &Reply) -> Result<(), KeepFault>
        requires short { length (event_text event.now) < 2 ^ 16 }
        requires ready { ready self.old device.old }
        ensures ready { ¬ (IsErrOf result KeepFault.Disk) → ready self.new device.new }
        ensures keeps { (first : Self) (mark : D) (s : State) (least es : List Event) → reply.now ≡ reply_to (state_after s es) event.now
            → kept first mark self.old device.old s least es
            → KeepsOn (kept first mark self.new device.new s) (lost first mark self.new device.new s) (full first mark s) least es (event.now ∷ []) result };

    /// Settles all events that were given to it. It fails where the disk does.
    fn settle(&mut self, device: &mut D) -> Result<(), KeepFault>
        requires ready { ready self.old device.old }
        ensures ready { OnOk result (ready self.new device.new) }
        ensures settles { (first : Self) (mark : D) (s : State) (least es : List Event)
            → kept first mark self.old device.old s least es
            → SettlesOn (kept first mark self.new device.new s) (lost first mark self.new device.new s) least es result };
}

/// Keeps nothing.
#[derive(Clone, Copy)]
pub(crate) struct NoKeeper;

impl Keeper<()> for NoKeeper {
    ghost ready = { λ k d. Unit {0} };

    ghost kept = { λ k0 d0 k d s least es. Unit {0} };

    ghost lost = { λ k0 d0 k d s least es. ⊥ };

    ghost full = { λ k d s es end. ⊥ };

    fn keep(&mut self, _device: &mut (), _event: &Event, _reply: &Reply) -> Result<(), KeepFault> {
        Ok(())
    }

    fn settle(&mut self, _device: &mut ()) -> Result<(), KeepFault> {
        Ok(())
    }
}

impl From<NoMemory> for KeepFault {
    ghost use Rattle.script_session.specs.declared.keeper.KeepFault.TheVariants as fault;

    ghost from_gives = { λ _ given. given ≡ fault.NoMemory };

    fn from(_: NoMemory) -> Self {
        KeepFault::NoMemory
    }
}
