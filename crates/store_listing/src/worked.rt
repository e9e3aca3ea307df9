//! Examples of a store as text, for the proof alone: the check computes them.
ghost use Rattle.std.specs.Prelude.{◌≡◌, [], ◌∷◌, codes};
ghost use Rattle.store_listing.specs.Listing.{store_text, size_behind};

/// The lines of a store; none of a store that holds none.
pub fn a_store_as_text()
    ensures lines { store_text (codes "config 0a" ∷ codes "problem A 1" ∷ codes "submit A" ∷ []) ≡ codes "# config 0a\nproblem A 1\nsubmit A\n" }
    ensures config { store_text (codes "config 0a" ∷ []) ≡ codes "# config 0a\n" }
    ensures none { store_text [] ≡ [] }
{}

/// Behind the records stand the closed gate, and a record that was not finished.
pub fn what_stands_behind_the_records()
    ensures gate { size_behind (1 ∷ 2 ∷ 0 ∷ 104 ∷ 105 ∷ 0 ∷ []) ≡ 1 }
    ensures record_of_one { size_behind (1 ∷ 2 ∷ 0 ∷ 104 ∷ 105 ∷ 0 ∷ 1 ∷ 0 ∷ 104 ∷ 0 ∷ []) ≡ 5 }
    ensures nothing { size_behind [] ≡ 0 }
{}
