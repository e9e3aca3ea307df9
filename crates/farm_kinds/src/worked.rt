//! Computed examples, for the proof alone: each function has an empty body, and the check computes its contract.
ghost use Rattle.std.specs.Prelude.{◌≡◌, [], ◌∷◌, Some, None, codes, replicate, true, false};
ghost use Rattle.farm_kinds.specs.declared.kinds.Kind.TheVariants.{Correct, WrongAnswer, RunError, TimeLimit};
ghost use Rattle.farm_kinds.specs.Kinds.{kind_named};
ghost use Rattle.farm_kinds.specs.Names.{name_read};
ghost use Rattle.farm_kinds.specs.Limits.{is_raw_image};
ghost use Rattle.farm_kinds.specs.Rules.{verdict_of, standard};
ghost use Rattle.farm_kinds.specs.RuleFaults.{first_high_kind};

/// The definition of verdicts at lists of kinds: the greatest priority decides, and the earliest rank
/// on a tie.
pub fn worked_verdicts()
    ensures tie { verdict_of standard (Correct ∷ TimeLimit ∷ RunError ∷ []) ≡ Some TimeLimit }
    ensures middle { verdict_of standard (Correct ∷ WrongAnswer ∷ Correct ∷ []) ≡ Some WrongAnswer }
    ensures empty { verdict_of standard [] ≡ None }
{}

/// The definition of kinds' names at words.
pub fn worked_kinds()
    ensures named { kind_named (codes "run-error") ≡ Some RunError }
    ensures unnamed { kind_named (codes "fine") ≡ None }
{}

/// The definition of names at words.
pub fn worked_names()
    ensures named { name_read (codes "a-Z_9") ≡ Some (codes "a-Z_9") }
    ensures empty { name_read [] ≡ None }
    ensures dot { name_read (codes "A.B") ≡ None }
    ensures longest { name_read (replicate 32 97) ≡ Some (replicate 32 97) }
    ensures too_long { name_read (replicate 33 97) ≡ None }
{}

/// The first priority that is too high.
pub fn worked_rules()
    ensures first { first_high_kind (999 ∷ 1000 ∷ 0 ∷ 1001 ∷ 0 ∷ 0 ∷ 0 ∷ 0 ∷ []) ≡ Some WrongAnswer }
    ensures none { first_high_kind (replicate 8 999) ≡ None }
{}

/// The definition of raw images at bytes.
pub fn worked_images()
    ensures word { is_raw_image (replicate 4 0) ≡ true }
    ensures empty { is_raw_image [] ≡ false }
    ensures part { is_raw_image (replicate 3 0) ≡ false }
    ensures more { is_raw_image (replicate 6 0) ≡ false }
{}
