ghost use Rattle.std.specs.Prelude.{◌≡◌, codes, Some};
ghost use Rattle.problem_settings.specs.Entries.{and_then};
ghost use Rattle.problem_settings.specs.ProblemYaml.{name_in, custom_with, validation_named};
ghost use Rattle.problem_settings.specs.Scalars.{scalar_of};
ghost use Rattle.problem_settings.specs.Views.{scalar_text, Says};
ghost use Rattle.std.specs.Str.{bytes_eq};

use crate::bytes::{content_of, has_tab};
use crate::fields::field_of;
use crate::scalars::{Scalar, read_scalar};
use crate::yaml::{Validation, YamlWhy};

/// The name that a line under `name:` says: its value, or all of it where it has no key.
pub(crate) fn name_in(line: &[u8]) -> Result<Scalar<'_>, YamlWhy>
    ensures { Says scalar_text (name_in line.now) result }
{
    if has_tab(line) {
        return Err(YamlWhy::Tab);
    }
    let content = content_of(line);
    match field_of(content) {
        None => read_scalar(content),
        Some(field) => read_scalar(field.value),
    }
}

/// Whether the text is `default`.
#[tactic(auto, using(crate::proofs::FieldLemmas::word_alone))]
fn is_default(text: &Scalar) -> bool
    ensures { result ≡ bytes_eq (scalar_text text.now) (codes "default") }
{
    match text.after_word(b"default") {
        None => false,
        Some(rest) => rest.is_empty(),
    }
}

/// What `custom` says with what follows it.
fn custom_with(rest: &Scalar) -> Result<Validation, YamlWhy>
    ensures { result ≡ custom_with (Some (scalar_text rest.now)) }
{
    let word = rest.after_spaces();
    if word.after_word(b"interactive").is_some() {
        return Err(YamlWhy::Interactive);
    }
    if word.after_word(b"score").is_some() {
        return Err(YamlWhy::Score);
    }
    Ok(Validation::Custom)
}

fn validation_named(text: &Scalar) -> Result<Validation, YamlWhy>
    ensures { result ≡ validation_named (scalar_text text.now) }
{
    if text.is_empty() || is_default(text) {
        return Ok(Validation::Default);
    }
    match text.after_word(b"custom") {
        None => Err(YamlWhy::BadValue),
        Some(rest) => custom_with(&rest),
    }
}

/// The validation that a value says.
pub(crate) fn validation_of(value: &[u8]) -> Result<Validation, YamlWhy>
    ensures { result ≡ and_then validation_named (scalar_of value.now) }
{
    let text = read_scalar(value)?;
    validation_named(&text)
}
