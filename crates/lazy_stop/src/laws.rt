//! Laws, for the proof alone: each function has an empty body, and its contract is the law.
ghost use Rattle.std.specs.Prelude.{IsTrue, ◌≡◌, ◌≢◌, ◌↔◌, ◌+◌, ℕ, List, [], ◌∷◌, Some, None, slice_get, slice_set};
ghost use Rattle.std.specs.List.{Contains};
ghost use Rattle.farm_kinds.specs.RuleValue.{RuleValue};
ghost use Rattle.farm_kinds.specs.Rules.{standard, verdict_of, remap_of, possible_kinds};
ghost use Rattle.farm_kinds.specs.declared.kinds.Kind.{Kind};
ghost use Rattle.farm_kinds.specs.declared.kinds.Kind.TheVariants.{Correct, WrongAnswer, RunError, TimeLimit};
ghost use Rattle.farm_kinds.specs.declared.outcomes.Mode.TheVariants.{Lazy, Full};
ghost use Rattle.farm_kinds.specs.declared.outcomes.Verdict.TheVariants.{Tests, CompilerError};
ghost use Rattle.farm_kinds.specs.declared.outcomes.Answer.TheVariants.{Final, Pending};
ghost use Rattle.farm_model.specs.Rows.{Row, completions_of, is_settled, kinds_of, answer_of, matters};
ghost use Rattle.lazy_stop.specs.Matters.{IsPossible, IsCompletion, Matters, Extends};

use farm_kinds::{Kind, Rule};

/// The definition of answers at rows.
pub fn worked_rows()
    ensures broken { answer_of standard Lazy [] ≡ Final CompilerError }
    ensures greatest_first { answer_of standard Lazy (Some RunError ∷ None ∷ []) ≡ Final (Tests RunError) }
    ensures earlier_may_tie { answer_of standard Lazy (None ∷ Some RunError ∷ []) ≡ Pending }
    ensures middle { answer_of standard Lazy (Some WrongAnswer ∷ None ∷ []) ≡ Pending }
    ensures all_correct { answer_of standard Lazy (Some Correct ∷ Some Correct ∷ []) ≡ Final (Tests Correct) }
    ensures two_left { answer_of standard Lazy (Some TimeLimit ∷ None ∷ None ∷ []) ≡ Final (Tests TimeLimit) }
    ensures in_full { answer_of standard Full (Some RunError ∷ None ∷ []) ≡ Pending }
{}

/// The list of a row's completions has all of them, and nothing else.
pub fn completions_are_all()
    ensures { (rule : RuleValue) (row : Row) (kinds : List Kind)
        → Contains (completions_of rule row) kinds ↔ IsCompletion rule row kinds }
{}

/// A verdict is settled exactly where it is the verdict of every completion.
pub fn settled_is_every_completion()
    ensures { (rule : RuleValue) (row : Row) (v : Kind)
        → IsTrue (is_settled rule row v) ↔ ((kinds : List Kind) → Contains (completions_of rule row) kinds → verdict_of rule kinds ≡ Some v) }
{}

/// Lazily, the answer to a row with cells is final exactly with the verdict that is settled.
pub fn final_iff_settled()
    ensures { (rule : RuleValue) (row : Row) (v : Kind) → row ≢ []
        → (answer_of rule Lazy row ≡ Final (Tests v)) ↔ IsTrue (is_settled rule row v) }
{}

/// A cell matters exactly where it is empty and two ways to fill the row that differ there alone have
/// different verdicts.
pub fn matters_iff_verdicts_differ()
    ensures { (rule : RuleValue) (row : Row) (at : ℕ)
        → IsTrue (matters rule row (at + 1)) ↔ Matters rule row at }
{}

/// A row with cells has no settled verdict exactly where some empty cell matters.
pub fn unsettled_iff_matters()
    ensures { (rule : RuleValue) (row : Row) → row ≢ []
        → ((v : Kind) → ¬ IsTrue (is_settled rule row v)) ↔ ((test : ℕ) × IsTrue (matters rule row test)) }
{}

/// Lazily, the answer to a row with cells is pending exactly where some empty cell matters.
pub fn pending_iff_matters()
    ensures { (rule : RuleValue) (row : Row) → row ≢ []
        → (answer_of rule Lazy row ≡ Pending) ↔ ((test : ℕ) × IsTrue (matters rule row test)) }
{}

/// In full mode the answer to a row with cells is pending exactly where a cell is empty.
pub fn full_pending_iff_empty()
    ensures { (rule : RuleValue) (row : Row) → row ≢ []
        → (answer_of rule Full row ≡ Pending) ↔ ((at : ℕ) × (slice_get row at ≡ Some None)) }
{}

/// Filling an empty cell with a possible kind keeps each settled verdict.
pub fn filling_keeps_settled()
    ensures { (rule : RuleValue) (row : Row) (at : ℕ) (kind v : Kind)
        → slice_get row at ≡ Some None → IsPossible rule kind
        → IsTrue (is_settled rule row v) → IsTrue (is_settled rule (slice_set row at (Some kind)) v) }
{}

/// A final answer stays, whichever empty cell is filled next.
pub fn filling_keeps_final()
    ensures { (rule : RuleValue) (row : Row) (at : ℕ) (kind v : Kind)
        → slice_get row at ≡ Some None → IsPossible rule kind
        → answer_of rule Lazy row ≡ Final (Tests v)
        → answer_of rule Lazy (slice_set row at (Some kind)) ≡ Final (Tests v) }
{}

/// A settled verdict is the verdict of every full row that extends the row.
pub fn settled_is_the_full_verdict()
    ensures { (rule : RuleValue) (row later : Row) (v : Kind) (kinds : List Kind)
        → Extends (possible_kinds rule) row later → IsTrue (is_settled rule row v)
        → kinds_of later ≡ Some kinds → verdict_of rule kinds ≡ Some v }
{}

/// A final answer is the answer of full judging to every full row that extends the row.
pub fn final_is_the_full_answer()
    ensures { (rule : RuleValue) (row later : Row) (v : Kind) (kinds : List Kind)
        → row ≢ [] → Extends (possible_kinds rule) row later
        → answer_of rule Lazy row ≡ Final (Tests v) → kinds_of later ≡ Some kinds
        → answer_of rule Full later ≡ Final (Tests v) }
{}

/// What a kind counts as is possible: the condition of [`crate::Row::put`] for a remapped kind. A call does nothing
/// but tell the proof so.
pub fn remapped_is_possible(rule: &Rule, kind: Kind)
    ensures { IsPossible rule.now (remap_of rule.now kind) }
{}
