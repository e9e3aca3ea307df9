ghost use Rattle.std.specs.Prelude.{◌≡◌, ◌≢◌, ◌<◌, List, ℕ, None, Some, IfNone, IfSome, length, slice_index, true, false};
ghost use Rattle.farm_model.specs.Words.{words};
ghost use Rattle.command_text.specs.Fronts.{first_name, first_number};

use crate::numbers::{leading_digits, leads_well};
use crate::words::{next_word, start_of};
use farm_kinds::Name;

/// The name that the first word of a line is, and what follows it.
pub fn next_name(text: &[u8]) -> Option<(Name, &[u8])>
    ensures none { IfNone result (first_name (words text.now) ≡ None) }
    ensures some { IfSome result (λ r. first_name (words text.now) ≡ Some (r.0, words r.1.now)) }
{
    let (word, rest) = next_word(text)?;
    Some((Name::read(word)?, rest))
}

/// The number that the first word of a line is, and what follows it.
pub fn next_number(text: &[u8]) -> Option<(u32, &[u8])>
    ensures none { IfNone result (first_number (words text.now) ≡ None) }
    ensures some { IfSome result (λ r. first_number (words text.now) ≡ Some (r.0, words r.1.now)) }
{
    front_number(&text[start_of(text)..])
}

/// The number that begins a text, which does not begin with a space, and what follows it.
#[tactic(auto, using(crate::proofs::FrontLemmas::over))]
fn front_number(text: &[u8]) -> Option<(u32, &[u8])>
    requires { 0 < length text.now → slice_index text.now 0 ≢ 32 }
    ensures none { IfNone result (first_number (words text.now) ≡ None) }
    ensures some { IfSome result (λ r. first_number (words text.now) ≡ Some (r.0, words r.1.now)) }
{
    let (number, len) = leading_digits(text, u32::MAX as u64)?;
    let (digits, rest) = text.split_at(len);
    if !leads_well(digits) {
        return None;
    }
    if !ends_word(rest) {
        return None;
    }
    Some((number as u32, rest))
}

/// Whether a word ends before this text: it is empty, or begins with a space.
fn ends_word(text: &[u8]) -> bool
    ensures ends { result ≡ true → 0 < length text.now → slice_index text.now 0 ≡ 32 }
    ensures goes_on { result ≡ false → (0 < length text.now) × (slice_index text.now 0 ≢ 32) }
{
    match text {
        [] => true,
        [first, ..] => *first == b' ',
    }
}
