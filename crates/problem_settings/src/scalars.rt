ghost use Rattle.std.specs.Prelude.{◌≡◌, ◌<◌, ◌≤◌, [], ◌∷◌, length, MatchOption, IfSome, Ok, Err, if◌then◌else◌};
ghost use Rattle.problem_settings.specs.Scalars.{comment_from, plain_text, single_text, single_after, double_text, double_after, is_escape, escaped, ends_value, begins_form, scalar_of};
ghost use Rattle.problem_settings.specs.Views.{scalar_text, scalar_size, Says};

use crate::bytes::{ends_word, is_blank, trimmed};
use crate::yaml::YamlWhy;

/// A value of one line, as it stands there.
#[derive(Clone, Copy)]
pub(crate) enum Scalar<'a> {
    /// The text itself.
    Plain(&'a [u8]),
    /// What stands behind the opening single quote.
    Single(&'a [u8]),
    /// What stands behind the opening double quote.
    Double(&'a [u8]),
}

/// How many bytes stand before the comment.
fn comment_of(spaced: bool, text: &[u8]) -> usize
    ensures value { result ≡ comment_from 0 spaced text.now }
    ensures within { result ≤ length text.now }
{
    let mut spaced = spaced;
    for (i, b) in text.iter().enumerate() {
        if spaced && *b == b'#' {
            return i;
        }
        spaced = *b == b' ';
    }
    text.len()
}

/// The text of a plain scalar; `spaced` says that a space stands before it.
pub(crate) fn plain_text(spaced: bool, text: &[u8]) -> &[u8]
    ensures { result.now ≡ plain_text spaced text.now }
{
    trimmed(&text[..comment_of(spaced, text)])
}

/// What stands behind the closing single quote.
fn single_after(text: &[u8]) -> Result<&[u8], YamlWhy>
    ensures { Says (λ rest. rest.now) (single_after text.now) result }
{
    let mut left = text;
    while let [first, rest @ ..] = left {
        if *first != b'\'' {
            left = rest;
        } else {
            let [second, others @ ..] = rest else {
                return Ok(rest);
            };
            if *second != b'\'' {
                return Ok(rest);
            }
            left = others;
        }
    }
    Err(YamlWhy::Open)
}

/// What stands behind the closing double quote.
fn double_after(text: &[u8]) -> Result<&[u8], YamlWhy>
    ensures { Says (λ rest. rest.now) (double_after text.now) result }
{
    let mut left = text;
    while let [first, rest @ ..] = left {
        if *first == b'"' {
            return Ok(rest);
        }
        if *first != b'\\' {
            left = rest;
        } else {
            let [second, others @ ..] = rest else {
                return Err(YamlWhy::Open);
            };
            if !is_escape(*second) {
                return Err(YamlWhy::BadEscape);
            }
            left = others;
        }
    }
    Err(YamlWhy::Open)
}

fn is_escape(b: u8) -> bool
    ensures { result ≡ is_escape b }
{
    b == b'"' || b == b'\\' || b == b'n' || b == b't'
}

fn escaped(b: u8) -> u8
    ensures { result ≡ escaped b }
{
    if b == b'n' {
        b'\n'
    } else if b == b't' {
        b'\t'
    } else {
        b
    }
}

fn ends_value(text: &[u8]) -> bool
    ensures { result ≡ ends_value text.now }
{
    ends_word(text) && is_blank(text)
}

pub(crate) fn begins_form(b: u8) -> bool
    ensures { result ≡ begins_form b }
{
    b == b'|' || b == b'>' || b == b'[' || b == b'&' || b == b'*' || b == b'!' || b == b'{'
}

/// The scalar that a value is, or why it is none. It begins with no space, or is empty.
pub(crate) fn read_scalar(value: &[u8]) -> Result<Scalar<'_>, YamlWhy>
    ensures { Says scalar_text (scalar_of value.now) result }
{
    let [first, rest @ ..] = value else {
        return Ok(Scalar::Plain(value));
    };
    if *first == b'\'' {
        return closed(Scalar::Single(rest), single_after(rest)?);
    }
    if *first == b'"' {
        return closed(Scalar::Double(rest), double_after(rest)?);
    }
    if begins_form(*first) {
        return Err(YamlWhy::Form);
    }
    Ok(Scalar::Plain(plain_text(true, value)))
}

/// The scalar, where nothing but a comment stands behind its closing quote.
fn closed<'a>(scalar: Scalar<'a>, after: &[u8]) -> Result<Scalar<'a>, YamlWhy>
    ensures { result ≡ (if ends_value after.now then Ok scalar.entry else Err YamlWhy.Form) }
{
    if ends_value(after) {
        Ok(scalar)
    } else {
        Err(YamlWhy::Form)
    }
}

/// The first byte of a single-quoted text, and what follows it.
#[tactic(auto, using(crate::proofs::ScalarLemmas::single_text_more))]
fn next_single(text: &[u8]) -> Option<(u8, &[u8])>
    ensures cases { MatchOption result (single_text text.now ≡ []) (λ r. single_text text.now ≡ r.0 ∷ single_text r.1.now) }
    ensures shorter { IfSome result (λ r. length r.1.now < length text.now) }
{
    let [first, rest @ ..] = text else {
        return None;
    };
    if *first != b'\'' {
        return Some((*first, rest));
    }
    let [second, others @ ..] = rest else {
        return None;
    };
    if *second != b'\'' {
        return None;
    }
    Some((*second, others))
}

/// The first byte of a double-quoted text, and what follows it.
#[tactic(auto, using(crate::proofs::ScalarLemmas::double_text_more, crate::proofs::ScalarLemmas::double_text_end))]
fn next_double(text: &[u8]) -> Option<(u8, &[u8])>
    ensures cases { MatchOption result (double_text text.now ≡ []) (λ r. double_text text.now ≡ r.0 ∷ double_text r.1.now) }
    ensures shorter { IfSome result (λ r. length r.1.now < length text.now) }
{
    let [first, rest @ ..] = text else {
        return None;
    };
    if *first == b'"' {
        return None;
    }
    if *first != b'\\' {
        return Some((*first, rest));
    }
    let [second, others @ ..] = rest else {
        return Some((*first, rest));
    };
    Some((escaped(*second), others))
}

impl<'a> Scalar<'a> {
    /// The first byte of the text, and what follows it.
    pub(crate) fn next(&self) -> Option<(u8, Scalar<'a>)>
        ensures cases { MatchOption result (scalar_text self.now ≡ []) (λ r. scalar_text self.now ≡ r.0 ∷ scalar_text r.1) }
        ensures shorter { IfSome result (λ r. scalar_size r.1 < scalar_size self.now) }
    {
        match self {
            Scalar::Plain(text) => {
                let (first, rest) = text.split_first()?;
                Some((*first, Scalar::Plain(rest)))
            }
            Scalar::Single(text) => {
                let (first, rest) = next_single(text)?;
                Some((first, Scalar::Single(rest)))
            }
            Scalar::Double(text) => {
                let (first, rest) = next_double(text)?;
                Some((first, Scalar::Double(rest)))
            }
        }
    }
}
