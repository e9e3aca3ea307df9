//! The texts of events in a store: a law, for the proof alone.
ghost use Rattle.std.specs.Prelude.{◌≡◌, ◌≤◌, ◌<◌, ◌^◌, ℕ, List, length, Ok, Some};
ghost use Rattle.farm_kinds.specs.declared.events.Event.{Event};
ghost use Rattle.farm_model.specs.Grammar.{line_read};
ghost use Rattle.farm_model.specs.Texts.{event_text};

/// The text of an event that a line of a script says, of at most 4,096 bytes, has a length that two bytes can say. So an
/// event that came from a line can be added to a store.
#[tactic(auto, using(crate::proofs::ShortTexts::text_short))]
pub fn texts_of_lines_are_short()
    ensures { (line : List ℕ) (e : Event) → line_read line ≡ Ok (Some e) → length line ≤ 4096 → length (event_text e) < 2 ^ 16 }
{}
