//! A law, for the proof alone: the function has an empty body, and its contract is the law.
ghost use Rattle.std.specs.Prelude.{◌≡◌, ◌↔◌, ℕ, List, ◌∷◌, codes};
ghost use Rattle.std.specs.List.{Contains};
ghost use Rattle.command_line.specs.CommandLine.{command_of};
ghost use Rattle.command_laws.specs.Items.{Item, all_words, all_said, TakesAll, judge_words, serve_words, host_words};

/// The operand, the options and the flags of a command may stand in any order, and each option in either form: words
/// that say the same, of each name once, are the same command, or none of them is one.
pub fn options_stand_in_any_order()
    ensures judge { (program : List ℕ) (items others : List Item) → TakesAll judge_words items → TakesAll judge_words others
        → ((m : List ℕ × List ℕ) → Contains (all_said judge_words items) m ↔ Contains (all_said judge_words others) m)
        → command_of (program ∷ codes "judge" ∷ all_words items) ≡ command_of (program ∷ codes "judge" ∷ all_words others) }
    ensures serve { (program : List ℕ) (items others : List Item) → TakesAll serve_words items → TakesAll serve_words others
        → ((m : List ℕ × List ℕ) → Contains (all_said serve_words items) m ↔ Contains (all_said serve_words others) m)
        → command_of (program ∷ codes "serve" ∷ all_words items) ≡ command_of (program ∷ codes "serve" ∷ all_words others) }
    ensures host { (program : List ℕ) (items others : List Item) → TakesAll host_words items → TakesAll host_words others
        → ((m : List ℕ × List ℕ) → Contains (all_said host_words items) m ↔ Contains (all_said host_words others) m)
        → command_of (program ∷ codes "host" ∷ all_words items) ≡ command_of (program ∷ codes "host" ∷ all_words others) }
{}
