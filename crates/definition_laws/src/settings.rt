//! Laws, for the proof alone: each function has an empty body, and its contract is the law.
ghost use Rattle.std.specs.Prelude.{◌≡◌, ℕ, List, Ok, Err};
ghost use Rattle.problem_settings.specs.declared.yaml.BadLine.{BadLine};
ghost use Rattle.problem_settings.specs.Lines.{lines_of};
ghost use Rattle.problem_settings.specs.ProblemYaml.{yaml_of};
ghost use Rattle.problem_settings.specs.Scalars.{scalar_of};
ghost use Rattle.definition_laws.specs.FirstFault.{IsFirstFault};
ghost use Rattle.definition_laws.specs.QuotedTexts.{single_quoted, double_quoted};

/// Where `problem.yaml` has a fault, the lines before the one that is told have none, and with that line they have this
/// one.
pub fn the_first_faulty_line_is_told()
    ensures { (text : List ℕ) (fault : BadLine) → yaml_of text ≡ Err fault → IsFirstFault (lines_of text) fault }
{}

/// A value of `problem.yaml` that is a quoted text is read as that text, whatever bytes it has: in single quotes with
/// each of its quotes twice, and in double quotes with a backslash before what needs one.
pub fn a_quoted_text_is_read_back()
    ensures single { (text : List ℕ) → scalar_of (single_quoted text) ≡ Ok text }
    ensures double { (text : List ℕ) → scalar_of (double_quoted text) ≡ Ok text }
{}
