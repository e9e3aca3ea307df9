//! A store that was left by a crash is opened again: a law, for the proof alone.
ghost use Rattle.std.specs.Prelude.{◌≡◌, ◌∷◌, ℕ, List, length, map, take, Ok};
ghost use Rattle.hex.specs.Hex.{IsBytes};
ghost use Rattle.record_store.specs.Held.{held};
ghost use Rattle.farm_kinds.specs.declared.events.Event.{Event};
ghost use Rattle.farm_model.specs.State.{State};
ghost use Rattle.farm_model.specs.Replay.{state_after};
ghost use Rattle.farm_model.specs.Texts.{event_text};
ghost use Rattle.stored_events.specs.Again.{AreReadBack};
ghost use Rattle.stored_events.specs.Kept.{kept_events};
ghost use Rattle.stored_events.specs.Opening.{config_line, opened_of};

/// A store that holds the record of its configuration and behind it the events of a run that are stored is opened, and
/// leads to the state of the whole run; neither `OtherConfig` nor `BadRecord` comes. The first of these events are those of
/// a prefix of the run, so a store that lost its last ones leads to the state after that prefix.
#[tactic(auto, using(crate::proofs::KeptReplays::opened_again, crate::proofs::KeptReplays::kept_prefix))]
pub fn a_store_is_opened_again()
    ensures opened { (digest : List ℕ) (s : State) (es : List Event) (file : List ℕ) → length digest ≡ 32 → IsBytes digest → AreReadBack es
        → held file ≡ config_line digest ∷ map event_text (kept_events s es) → opened_of digest s file ≡ Ok (state_after s es) }
    ensures prefix { (s : State) (es : List Event) (k : ℕ) → (j : ℕ) × (take k (kept_events s es) ≡ kept_events s (take j es)) }
{}
