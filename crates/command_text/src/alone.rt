ghost use Rattle.std.specs.Prelude.{◌≡◌, ◌≢◌, ◌∷◌, [], List, ℕ, IfNone, IfSome};
ghost use Rattle.farm_model.specs.Words.{words};
ghost use Rattle.farm_model.specs.Grammar.{bare_line};
ghost use Rattle.command_text.specs.Alone.{name_alone, number_alone, kind_alone};

use crate::fronts::next_number;
use crate::words::next_word;
use farm_kinds::{Event, Kind, Name};

/// The word that is all that the line says.
fn word_alone(rest: &[u8]) -> Option<&[u8]>
    ensures none { IfNone result ((word : List ℕ) → words rest.now ≢ word ∷ []) }
    ensures some { IfSome result (λ word. words rest.now ≡ word.now ∷ []) }
{
    let (word, rest) = next_word(rest)?;
    if next_word(rest).is_some() {
        return None;
    }
    Some(word)
}

/// The name that is all that the line says.
pub fn name_alone(rest: &[u8]) -> Option<Name>
    ensures { result ≡ name_alone (words rest.now) }
{
    Name::read(word_alone(rest)?)
}

/// The number that is all that the line says.
#[tactic(auto, using(crate::proofs::LineLemmas::number_alone_by))]
pub fn number_alone(rest: &[u8]) -> Option<u32>
    ensures { result ≡ number_alone (words rest.now) }
{
    let (number, rest) = next_number(rest)?;
    if next_word(rest).is_some() {
        return None;
    }
    Some(number)
}

/// The kind that is all that the line says.
pub fn kind_alone(rest: &[u8]) -> Option<Kind>
    ensures { result ≡ kind_alone (words rest.now) }
{
    Kind::read(word_alone(rest)?)
}

/// The event, where the line says no more.
pub fn bare_line(event: Event, rest: &[u8]) -> Option<Event>
    ensures { result ≡ bare_line event (words rest.now) }
{
    if next_word(rest).is_some() {
        None
    } else {
        Some(event)
    }
}
