//! Worked rows of the cutting of lines, for the proof alone: the check computes them.

ghost use Rattle.std.specs.Prelude.{◌≡◌, [], ◌∷◌, codes};
ghost use Rattle.farm_io.specs.Lines.{Whole, lines_of, through_last_feed};

/// The lines of some bytes, as the check computes them.
pub fn computed_lines()
    ensures ends { lines_of (codes "a\r\n\nb") ≡ Whole (codes "a") ∷ (Whole [] ∷ (Whole (codes "b") ∷ [])) }
    ensures one_return { lines_of (codes "a\r\r\n\r") ≡ Whole (codes "a\r") ∷ (Whole [] ∷ []) }
    ensures none { lines_of [] ≡ [] }
    ensures whole { through_last_feed (codes "a\n\nb") ≡ codes "a\n\n" }
    ensures unfed { through_last_feed (codes "ab") ≡ [] }
{}
