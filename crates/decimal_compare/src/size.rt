ghost use Rattle.std.specs.Prelude.{◌≡◌, ◌≤◌, ◌+◌, ◌-◌, ◌*◌, ◌^◌, ◌==◌, ◌&&◌, true, length, min, take, drop};
ghost use Rattle.std.specs.List.{fold, list_all};
ghost use Rattle.decimal_compare.specs.Digits.{is_digit, with_digit, digits_number};
ghost use Rattle.decimal_compare.specs.Decimal.{size_of, raise_of, lower_of};
ghost use Rattle.decimal_compare.specs.Amount.{is_exact};
ghost use Rattle.decimal_compare.specs.PartsView.{numeral_of_parts};

use crate::parts::{Exponent, Parts};

/// The size from which a decimal is wide, in units.
pub const WIDE: u128 = 10_000_000_000_000_000_000_000_000;

/// The powers of ten up to 10^12.
const TENS: [u64; 13] = [
    1,
    10,
    100,
    1_000,
    10_000,
    100_000,
    1_000_000,
    10_000_000,
    100_000_000,
    1_000_000_000,
    10_000_000_000,
    100_000_000_000,
    1_000_000_000_000,
];

/// How many digits count for whole units: those before the point, once the exponent and the
/// twelve places of a unit have moved it.
fn whole_units(whole: &[u8], exponent: Exponent) -> usize
    requires { exponent.size ≤ 9999 }
    ensures { result ≡ length whole.now + 12 + raise_of exponent - lower_of exponent }
{
    let places = whole.len() + 12;
    if exponent.negative {
        places.saturating_sub(exponent.size as usize)
    } else {
        places + exponent.size as usize
    }
}

/// The first `count` digits, or all.
fn first(digits: &[u8], count: usize) -> &[u8]
    ensures { result.now ≡ take count digits.now }
{
    &digits[..count.min(digits.len())]
}

/// The digits after the first `count`.
fn past(digits: &[u8], count: usize) -> &[u8]
    ensures { result.now ≡ drop count digits.now }
{
    &digits[count.min(digits.len())..]
}

/// A power of ten.
fn ten_to(places: usize) -> u128
    requires { places ≤ 12 }
    ensures { result ≡ 10 ^ places }
{
    TENS[places] as u128
}

/// `append` digit by digit, for any number of digits.
fn append_each(start: u128, digits: &[u8]) -> u128
    requires start { start ≤ 10 ^ 25 }
    requires digits { list_all is_digit digits.now ≡ true }
    ensures { result ≡ min (fold with_digit start digits.now) (10 ^ 25) }
{
    let mut number = start;
    for b in digits {
        number = number * 10 + (*b - b'0') as u128;
        if number >= WIDE {
            return WIDE;
        }
    }
    number
}

/// The number that a few digits are.
fn small_number(digits: &[u8]) -> u64
    requires few { length digits.now ≤ 12 }
    requires digits { list_all is_digit digits.now ≡ true }
    ensures { result ≡ digits_number digits.now }
{
    let mut number = 0;
    for b in digits {
        number = number * 10 + (*b - b'0') as u64;
    }
    number
}

/// The number that `start` and then the digits are, or 10^25 where it is at least that.
fn append(start: u128, digits: &[u8]) -> u128
    requires start { start ≤ 10 ^ 25 }
    requires digits { list_all is_digit digits.now ≡ true }
    ensures { result ≡ min (fold with_digit start digits.now) (10 ^ 25) }
{
    if digits.len() > 12 {
        return append_each(start, digits);
    }
    (start * ten_to(digits.len()) + small_number(digits) as u128).min(WIDE)
}

/// The number `start` with `count` zeros behind it, or 10^25 where that is less.
#[tactic(auto, using(crate::proofs::Bounds::zeros_step))]
fn append_zeros(start: u128, count: usize) -> u128
    requires { start ≤ 10 ^ 25 }
    ensures { result ≡ min (start * 10 ^ count) (10 ^ 25) }
{
    if start == 0 {
        return 0;
    }
    let mut number = start;
    let mut left = count;
    while left > 12 {
        if number >= WIDE {
            return WIDE;
        }
        number = (number * ten_to(12)).min(WIDE);
        left -= 12;
    }
    (number * ten_to(left)).min(WIDE)
}

/// The size in units, or 10^25 where it is at least that.
pub fn size_of(parts: &Parts<'_>) -> u128
    ensures { result ≡ min (size_of (numeral_of_parts parts.now)) (10 ^ 25) }
{
    let taken = whole_units(parts.whole, parts.exponent);
    let whole = first(parts.whole, taken);
    let left = taken - whole.len();
    let fraction = first(parts.fraction, left);
    let number = append(append(0, whole), fraction);
    append_zeros(number, left - fraction.len())
}

fn only_zeros(digits: &[u8]) -> bool
    ensures { result ≡ list_all (λ b. b == 48) digits.now }
{
    digits.iter().all(|b| *b == b'0')
}

fn both_only_zeros(whole: &[u8], fraction: &[u8]) -> bool
    ensures { result ≡ (list_all (λ b. b == 48) whole.now && list_all (λ b. b == 48) fraction.now) }
{
    only_zeros(whole) && only_zeros(fraction)
}

/// Whether the size is the number itself, with nothing dropped.
pub fn is_exact(parts: &Parts<'_>) -> bool
    ensures { result ≡ is_exact (numeral_of_parts parts.now) }
{
    let taken = whole_units(parts.whole, parts.exponent);
    let whole = past(parts.whole, taken);
    let fraction = past(parts.fraction, taken.saturating_sub(parts.whole.len()));
    both_only_zeros(whole, fraction)
}
