//! A law, for the proof alone: the function has an empty body, and its contract is the law.
ghost use Rattle.std.specs.Prelude.{◌≡◌, ℕ, List, Ok, Some};
ghost use Rattle.farm_kinds.specs.declared.events.Event.{Event};
ghost use Rattle.farm_model.specs.Grammar.{line_read};
ghost use Rattle.farm_model.specs.Texts.{event_text};

/// What is written of an event that some line is read as is read as this event.
#[tactic(auto, using(crate::proofs::ReadBack::event_back))]
pub fn written_event_is_read()
    ensures { (line : List ℕ) (e : Event)
        → line_read line ≡ Ok (Some e) → line_read (event_text e) ≡ Ok (Some e) }
{}
