//! Which events of a run are stored.
ghost use Rattle.std.specs.Prelude.{◌≡◌, ◌++◌, false, List};
ghost use Rattle.farm_kinds.specs.declared.events.Event.{Event};
ghost use Rattle.farm_model.specs.State.{State};
ghost use Rattle.farm_model.specs.Farm.{farm_step};
ghost use Rattle.farm_model.specs.Replay.{state_after, reply_to};
ghost use Rattle.stored_events.specs.Kept.{is_look, is_done, is_kept, kept_events};

use farm_kinds::{Event, Reply};

/// Whether the event, where it was answered `reply`, is stored: it is no look at the farm, was not refused, and is no
/// claim for which no task is open. Every event that changes the farm is; so is a `tick`.
pub fn is_kept(event: &Event, reply: &Reply) -> bool
    ensures { result ≡ is_kept event.now reply.now }
{
    !is_look(event) && is_done(reply)
}

/// Whether the event only looks at the farm.
fn is_look(event: &Event) -> bool
    ensures { result ≡ is_look event.now }
{
    match event {
        Event::Show { .. } | Event::Owner { .. } | Event::Board => true,
        Event::Matrix { .. } | Event::Audit => true,
        _ => false,
    }
}

/// Whether the reply is that the event was done: no refusal, and not that no task is open.
fn is_done(reply: &Reply) -> bool
    ensures { result ≡ is_done reply.now }
{
    match reply {
        Reply::Problem { .. } | Reply::Host { .. } | Reply::Submitted { .. } => true,
        Reply::Handed { .. } | Reply::Batch { .. } | Reply::Counted => true,
        Reply::Until { .. } | Reply::Ended { .. } | Reply::Shown(_) => true,
        Reply::Owned { .. } | Reply::Board { .. } | Reply::Matrix { .. } => true,
        Reply::Rejudging { .. } | Reply::Applied { .. } | Reply::Cancelled { .. } => true,
        Reply::Verified { .. } | Reply::Audit { .. } => true,
        _ => false,
    }
}

/// For the proof alone: an event that is not stored changes nothing. So the events of a run that are stored lead to
/// the state to which the whole run leads, and what is stored of a run goes on with the run.
#[tactic(auto, using(crate::proofs::KeptLaws::not_kept, crate::proofs::KeptLaws::kept_lead, crate::proofs::KeptLaws::kept_append))]
pub fn kept_events_lead_to_the_state()
    ensures unchanged { (s : State) (e : Event) → is_kept e (reply_to s e) ≡ false → (farm_step s e).0 ≡ s }
    ensures state { (s : State) (es : List Event) → state_after s (kept_events s es) ≡ state_after s es }
    ensures goes_on { (s : State) (es more : List Event)
        → kept_events s (es ++ more) ≡ kept_events s es ++ kept_events (state_after s es) more }
{}
