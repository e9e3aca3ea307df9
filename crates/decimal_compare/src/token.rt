ghost use Rattle.std.specs.Prelude.{◌≡◌, if◌then◌else◌};
ghost use Rattle.decimal_compare.specs.Decimal.{token_of};

use crate::numeral::numeral_of;
use crate::size::{WIDE, size_of};

/// What a word is read as. A number is in units of 10^-12.
#[derive(Clone, Copy, Debug, PartialEq, Eq)]
pub enum Token {
    /// The word is no decimal.
    NotDecimal,
    /// A decimal with neither point nor exponent.
    Whole(i128),
    /// A decimal with a point or an exponent.
    Float(i128),
    /// A whole decimal at or past 10^25 units in size.
    WideWhole,
    /// A floating point decimal at or past 10^25 units in size.
    WideFloat,
}

fn wide(floating: bool) -> Token
    ensures { result ≡ (if floating then Token.WideFloat else Token.WideWhole) }
{
    if floating {
        Token::WideFloat
    } else {
        Token::WideWhole
    }
}

fn narrow(floating: bool, value: i128) -> Token
    ensures { result ≡ (if floating then Token.Float value else Token.Whole value) }
{
    if floating {
        Token::Float(value)
    } else {
        Token::Whole(value)
    }
}

/// Reads a word as a decimal: perhaps a sign, digits with at most one point, and perhaps `e` or
/// `E` with a sign and one to four digits. What is below one unit is dropped towards zero.
#[tactic(auto, unfolding(crate::specs::Decimal::decimal_of))]
pub fn read_decimal(word: &[u8]) -> Token
    ensures { result ≡ token_of word.now }
{
    let Some(parts) = numeral_of(word) else {
        return Token::NotDecimal;
    };
    let size = size_of(&parts);
    if size >= WIDE {
        return wide(parts.floating);
    }
    let size = size as i128;
    narrow(parts.floating, if parts.negative { -size } else { size })
}
