//! Laws, for the proof alone: each function has an empty body, and its contract is the law.
ghost use Rattle.std.specs.Prelude.{ℕ, List};
ghost use Rattle.farm_kinds.specs.declared.events.Event.{Event};
ghost use Rattle.farm_model.specs.State.{SettingsValue};
ghost use Rattle.farm_laws.specs.Laws.{EachStepKeepsPromise, KeepsPromise};
ghost use Rattle.farm_laws.specs.Output.{OutputIsReplayed, PrefixKeepsPromise, WholeIsWritten};

/// Whatever events came before from the empty farm, and whatever this one is, lazily or in full: a
/// judging is reported final exactly where its verdict is known from the results that were counted,
/// that verdict stays and is what one thread gives, only tasks that are still to be judged are handed
/// out, each result counts once and fills its cell, nothing else fills one, and a rejudging changes all
/// its submissions' current judgings when it is applied, and none when it is cancelled.
pub fn step_keeps_promise()
    ensures { (settings : SettingsValue) (es : List Event) → EachStepKeepsPromise settings es }
{}

/// Whatever the events: each step after them keeps its promise, each result was counted once, and rows
/// hold what was counted.
pub fn keeps_promise()
    ensures { (settings : SettingsValue) (es : List Event) → KeepsPromise settings es }
{}

/// The output of a script is what is written for each of its lines, in the state to which the lines before
/// it led; and what is written of it keeps the promise, line by line.
pub fn output_keeps_promise()
    ensures replayed { (settings : SettingsValue) (bytes : List ℕ) → OutputIsReplayed settings bytes }
    ensures prefix { (settings : SettingsValue) (bytes : List ℕ) → PrefixKeepsPromise settings bytes }
    ensures whole { (settings : SettingsValue) (bytes : List ℕ) → WholeIsWritten settings bytes }
{}
