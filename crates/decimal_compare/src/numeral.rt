ghost use Rattle.std.specs.Prelude.{◌≡◌, ◌≤◌, true, Some, None, IfSome, IfNone};
ghost use Rattle.std.specs.List.{list_all, prefix_len};
ghost use Rattle.decimal_compare.specs.Digits.{is_digit};
ghost use Rattle.decimal_compare.specs.Decimal.{has_minus, after_sign, leading_digits, after_digits, has_point, fraction_of, after_fraction, exponent_digits, exponent_of, numeral_of};
ghost use Rattle.decimal_compare.specs.PartsView.{numeral_of_parts};

use crate::parts::{Exponent, Parts};

fn has_minus(word: &[u8]) -> bool
    ensures { result ≡ has_minus word.now }
{
    match word {
        [] => false,
        [first, ..] => *first == b'-',
    }
}

fn after_sign(word: &[u8]) -> &[u8]
    ensures { result.now ≡ after_sign word.now }
{
    match word {
        [] => word,
        [first, rest @ ..] => {
            if *first == b'+' || *first == b'-' {
                rest
            } else {
                word
            }
        }
    }
}

/// How many digits stand in front.
fn digits_len(text: &[u8]) -> usize
    ensures { result ≡ prefix_len is_digit text.now }
{
    for (i, b) in text.iter().enumerate() {
        if !b.is_ascii_digit() {
            return i;
        }
    }
    text.len()
}

/// The digits in front, and what follows them.
#[tactic(auto, using(crate::proofs::Numbers::prefix_within, crate::proofs::Numbers::leading_are_digits))]
fn cut_digits(text: &[u8]) -> (&[u8], &[u8])
    ensures prefix { result.0.now ≡ leading_digits text.now }
    ensures rest { result.1.now ≡ after_digits text.now }
    ensures digits { list_all is_digit result.0.now ≡ true }
{
    text.split_at(digits_len(text))
}

fn has_point(text: &[u8]) -> bool
    ensures { result ≡ has_point text.now }
{
    match text {
        [] => false,
        [first, ..] => *first == b'.',
    }
}

/// The digits after a point in front, and what follows them.
fn cut_fraction(text: &[u8]) -> (&[u8], &[u8])
    ensures prefix { result.0.now ≡ fraction_of text.now }
    ensures rest { result.1.now ≡ after_fraction text.now }
    ensures digits { list_all is_digit result.0.now ≡ true }
{
    match text {
        [] => (text, text),
        [first, rest @ ..] => {
            if *first == b'.' {
                cut_digits(rest)
            } else {
                text.split_at(0)
            }
        }
    }
}

#[tactic(auto, using(crate::proofs::Bounds::three_digits, crate::proofs::Bounds::four_digits))]
fn exponent_digits(negative: bool, digits: &[u8]) -> Option<Exponent>
    ensures value { result ≡ exponent_digits negative digits.now }
    ensures four_digits { IfSome result (λ e. e.size ≤ 9999) }
{
    if digits.is_empty() || digits.len() > 4 {
        return None;
    }
    let mut size = 0;
    for b in digits {
        if !b.is_ascii_digit() {
            return None;
        }
        size = size * 10 + (*b - b'0') as u32;
    }
    Some(Exponent { negative, size })
}

fn read_exponent(text: &[u8]) -> Option<Exponent>
    ensures value { result ≡ exponent_of text.now }
    ensures four_digits { IfSome result (λ e. e.size ≤ 9999) }
{
    match text {
        [] => Some(Exponent {
            negative: false,
            size: 0,
        }),
        [mark, rest @ ..] => {
            if *mark == b'e' || *mark == b'E' {
                exponent_digits(has_minus(rest), after_sign(rest))
            } else {
                None
            }
        }
    }
}

/// The parts of a word that is a decimal.
#[tactic(auto, unfolding(crate::specs::Decimal::numeral_of))]
pub fn numeral_of(word: &[u8]) -> Option<Parts<'_>>
    ensures none { IfNone result (numeral_of word.now ≡ None) }
    ensures some { IfSome result (λ parts. numeral_of word.now ≡ Some (numeral_of_parts parts)) }
{
    let (whole, after_whole) = cut_digits(after_sign(word));
    let (fraction, rest) = cut_fraction(after_whole);
    if whole.is_empty() && fraction.is_empty() {
        return None;
    }
    let exponent = read_exponent(rest)?;
    Some(Parts {
        negative: has_minus(word),
        floating: has_point(after_whole) || !rest.is_empty(),
        whole,
        fraction,
        exponent,
    })
}
