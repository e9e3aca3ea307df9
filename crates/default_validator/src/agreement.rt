ghost use Rattle.std.specs.Prelude.{◌≡◌, ◌<◌, ◌^◌, ◌||◌, IfSome, Some, unsigned_abs, is_some};
ghost use Rattle.decimal_compare.specs.Decimal.{decimal_of};
ghost use Rattle.default_validator.specs.Accepts.{same_byte, same_word, narrow, numbers_agree, decimals_agree, agrees, is_wide_token};

use crate::flags::Flags;
use decimal_compare::{Token, Tolerance, read_decimal, within};

/// A judge's number is compared as one where its size is below this, in units.
const JUDGE_LIMIT: u128 = 1_000_000_000_000_000_000_000_000;

fn same_byte(case: bool, a: u8, b: u8) -> bool
    ensures { result ≡ same_byte case a b }
{
    if case {
        a == b
    } else {
        a.to_ascii_lowercase() == b.to_ascii_lowercase()
    }
}

fn same_word(case: bool, answer: &[u8], output: &[u8]) -> bool
    ensures { result ≡ same_word case answer.now output.now }
{
    if answer.len() != output.len() {
        return false;
    }
    for (i, a) in answer.iter().enumerate() {
        if !same_byte(case, *a, output[i]) {
            return false;
        }
    }
    true
}

/// The value of a word that is a decimal and not wide.
fn narrow(word: &[u8]) -> Option<i128>
    ensures value { result ≡ narrow (decimal_of word.now) }
    ensures small { IfSome result (λ n. unsigned_abs n < 10 ^ 25) }
{
    match read_decimal(word) {
        Token::Whole(number) => Some(number),
        Token::Float(number) => Some(number),
        _ => None,
    }
}

fn numbers_agree(tolerance: &Tolerance, judge: i128, team: i128) -> bool
    requires { unsigned_abs team < 10 ^ 25 }
    ensures { result ≡ numbers_agree tolerance.now (Some judge) (Some team) }
{
    judge.unsigned_abs() < JUDGE_LIMIT && within(tolerance, team, judge)
}

fn decimals_agree(tolerance: &Tolerance, answer: &[u8], output: &[u8]) -> bool
    ensures { result ≡ decimals_agree tolerance.now answer.now output.now }
{
    let Some(judge) = narrow(answer) else {
        return false;
    };
    let Some(team) = narrow(output) else {
        return false;
    };
    numbers_agree(tolerance, judge, team)
}

/// Whether numbers may differ, by a relative or an absolute amount (an amount of 0 counts too).
pub fn has_tolerance(tolerance: &Tolerance) -> bool
    ensures { result ≡ (is_some tolerance.now.relative || is_some tolerance.now.absolute) }
{
    tolerance.relative.is_some() || tolerance.absolute.is_some()
}

/// Whether the answer's token takes the output's.
pub fn agrees(flags: &Flags, answer: &[u8], output: &[u8]) -> bool
    ensures { result ≡ agrees flags.now answer.now output.now }
{
    same_word(flags.case, answer, output)
        || (has_tolerance(&flags.tolerance) && decimals_agree(&flags.tolerance, answer, output))
}

/// Whether the token is a floating point decimal at or past 10^24 units in size.
pub fn is_wide_token(token: &[u8]) -> bool
    ensures { result ≡ is_wide_token token.now }
{
    match read_decimal(token) {
        Token::Float(number) => number.unsigned_abs() >= JUDGE_LIMIT,
        Token::WideFloat => true,
        _ => false,
    }
}
