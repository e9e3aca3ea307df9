ghost use Rattle.std.specs.Prelude.{◌<◌, ◌^◌, unsigned_abs};

use crate::rows::{check_row, parts_of};
use decimal_compare::{Part, Token, Tolerance, read_amount, read_decimal, within};
use std::alloc::{AllocError, Global};
use std::process::Abort;

const UNIT: i128 = 1_000_000_000_000;

/// Words, and what is read of them, in units of 10^-12.
const DECIMALS: &str = concat!(
    "0.0314 => Float(31400000000)\n",
    "3.14000000e-2 => Float(31400000000)\n",
    "200 => Whole(200000000000000)\n",
    "2.0e2 => Float(200000000000000)\n",
    "+7 => Whole(7000000000000)\n",
    "-7E0 => Float(-7000000000000)\n",
    "007 => Whole(7000000000000)\n",
    "1.000000000001 => Float(1000000000001)\n",
    "1.0000000000009 => Float(1000000000000)\n",
    "-1.0000000000009 => Float(-1000000000000)\n",
    "1e-12 => Float(1)\n",
    "9.99e-13 => Float(0)\n",
    "1e-9999 => Float(0)\n",
    "0e9999 => Float(0)\n",
    "1e12 => Float(1000000000000000000000000)\n",
    "1000000000000 => Whole(1000000000000000000000000)\n",
    "9999999999999 => Whole(9999999999999000000000000)\n",
    "10000000000000 => WideWhole\n",
    "-10000000000000 => WideWhole\n",
    "1e13 => WideFloat\n",
    "9999999999999.9999999999999 => Float(9999999999999999999999999)\n",
    "-1e9999 => WideFloat\n",
);

/// Words that are written to mislead.
const HOSTILE_WORDS: &str = concat!(
    " => NotDecimal\n",
    ". => NotDecimal\n",
    "+ => NotDecimal\n",
    "- => NotDecimal\n",
    "-. => NotDecimal\n",
    "1. => Float(1000000000000)\n",
    ".5 => Float(500000000000)\n",
    "-.5 => Float(-500000000000)\n",
    "-0 => Whole(0)\n",
    "-0.0 => Float(0)\n",
    "1e => NotDecimal\n",
    "1e+ => NotDecimal\n",
    "1e- => NotDecimal\n",
    "e5 => NotDecimal\n",
    ".e5 => NotDecimal\n",
    "1e00002 => NotDecimal\n",
    "1e0002 => Float(100000000000000)\n",
    "1e99999 => NotDecimal\n",
    "1e2e3 => NotDecimal\n",
    "1e2.0 => NotDecimal\n",
    "1.2.3 => NotDecimal\n",
    "++1 => NotDecimal\n",
    "1+ => NotDecimal\n",
    "1  => NotDecimal\n",
    "1\0 => NotDecimal\n",
    "\0 => NotDecimal\n",
    "nan => NotDecimal\n",
    "0x10 => NotDecimal\n",
);

/// Words that are longer than any number is wide.
const LONG_WORDS: &str = concat!(
    "1234567890123456789012345678901234567890 => WideWhole\n",
    "0000000000000000000000000000000000000042 => Whole(42000000000000)\n",
    "1234567890123456789012345678901234567890e-39 => Float(1234567890123)\n",
    "1234567890123456789012345678901234567890e-27 => Float(1234567890123456789012345)\n",
    "9999999999999999999999999999999999999999e-27 => Float(9999999999999999999999999)\n",
    "1234567890123456789012345678901234567890e-26 => WideFloat\n",
    "0.0000000000000000000000000000000000000001e39 => Float(100000000000)\n",
    "0.0000000000000000000000000000000000000001e52 => Float(1000000000000000000000000)\n",
    "0.0000000000000000000000000000000000000001e53 => WideFloat\n",
);

/// What is read of a word.
fn token_text(alloc: Global, word: &str) -> Result<String, AllocError> {
    let token = read_decimal(word.as_bytes());
    format!(in alloc; "{token:?}")
}

/// What is wrong of a row of words, or nothing.
fn wrong_word(alloc: Global, row: &str) -> &str {
    let (word, wanted) = parts_of(row, " => ");
    let Ok(token) = token_text(alloc, word) else {
        return "no memory";
    };
    let right = token.as_str() == wanted;
    drop(token);
    if right { "" } else { wanted }
}

fn check_words<R: Abort + AllocGlobal>(rt: &R, rows: &str) {
    for row in rows.lines() {
        check_row(rt, row, wrong_word(rt.alloc(), row));
    }
}

#[test]
fn reads_decimals(rt: HostRuntime) {
    check_words(&rt, DECIMALS);
}

#[test]
fn reads_hostile_words(rt: HostRuntime) {
    let tokens = (read_decimal(b"1\xff"), read_decimal(b"\xb11"));
    assert_eq!(rt; tokens, (Token::NotDecimal, Token::NotDecimal));
    check_words(&rt, HOSTILE_WORDS);
}

#[test]
fn moves_the_point_through_long_words(rt: HostRuntime) {
    check_words(&rt, LONG_WORDS);
}

/// The part of a tolerance, a word, and the amount that is read of it, in units of 10^-12.
const AMOUNTS: &str = concat!(
    "both 1e-6 => Ok(1000000)\n",
    "both 1e-12 => Ok(1)\n",
    "both 1e-13 => Err(BadTolerance)\n",
    "both 10e-13 => Ok(1)\n",
    "both 0 => Ok(0)\n",
    "both +0.5 => Ok(500000000000)\n",
    "both -0 => Err(BadTolerance)\n",
    "both 1 => Ok(1000000000000)\n",
    "both 1.000000000001 => Err(BadTolerance)\n",
    "relative 1.0 => Ok(1000000000000)\n",
    "relative 1.000000000001 => Err(BadTolerance)\n",
    "absolute 1.000000000001 => Ok(1000000000001)\n",
    "absolute 1.0000000000010 => Ok(1000000000001)\n",
    "absolute 1.0000000000011 => Err(BadTolerance)\n",
    "absolute 999999999999.999999999999 => Ok(999999999999999999999999)\n",
    "absolute 1e12 => Err(BadTolerance)\n",
    "absolute 1e9999 => Err(BadTolerance)\n",
    "absolute 0e-9999 => Ok(0)\n",
    "absolute 1e-9999 => Err(BadTolerance)\n",
    "absolute 1e => Err(BadTolerance)\n",
);

fn part_of(word: &str) -> Part {
    match word {
        "relative" => Part::Relative,
        "absolute" => Part::Absolute,
        _ => Part::Both,
    }
}

/// What is read of a part and a word.
fn amount_text(alloc: Global, fields: &str) -> Result<String, AllocError> {
    let (part, word) = fields.split_once(' ').unwrap_or((fields, ""));
    let amount = read_amount(part_of(part), word.as_bytes());
    format!(in alloc; "{amount:?}")
}

/// What is wrong of a row of amounts, or nothing.
fn wrong_amount(alloc: Global, row: &str) -> &str {
    let (fields, wanted) = parts_of(row, " => ");
    let Ok(amount) = amount_text(alloc, fields) else {
        return "no memory";
    };
    let right = amount.as_str() == wanted;
    drop(amount);
    if right { "" } else { wanted }
}

#[test]
fn reads_amounts(rt: HostRuntime) {
    for row in AMOUNTS.lines() {
        check_row(&rt, row, wrong_amount(rt.alloc(), row));
    }
}

const MILLION: Option<i128> = Some(1_000_000);

const TEAM: i128 = 10 * UNIT * UNIT - 1;

const JUDGE: i128 = UNIT * UNIT - 1;

/// Checks whether the values of the team and of the judge agree within a relative and an absolute tolerance.
fn check_within<R: Abort>(
    rt: &R,
    relative: Option<i128>,
    absolute: Option<i128>,
    team: i128,
    judge: i128,
    want: bool,
)
    requires team { unsigned_abs team < 10 ^ 25 }
    requires judge { unsigned_abs judge < 10 ^ 24 }
{
    let tolerance = Tolerance { relative, absolute };
    assert_eq!(rt;
        within(&tolerance, team, judge),
        want,
        "{tolerance:?} at {team} for {judge}"
    );
}

#[test]
fn compares_within_tolerances(rt: HostRuntime) {
    check_within(&rt, None, None, 5, 5, false);
    check_within(&rt, None, Some(0), UNIT, UNIT, true);
    check_within(&rt, None, Some(0), UNIT + 1, UNIT, false);
    check_within(&rt, None, MILLION, UNIT + 1_000_000, UNIT, true);
    check_within(&rt, None, MILLION, UNIT + 1_000_001, UNIT, false);
    check_within(&rt, None, MILLION, UNIT - 1_000_001, UNIT, false);
    check_within(&rt, MILLION, None, 2 * UNIT + 2_000_000, 2 * UNIT, true);
    check_within(&rt, MILLION, None, 2 * UNIT + 2_000_001, 2 * UNIT, false);
    check_within(&rt, MILLION, None, -2 * UNIT - 2_000_000, -2 * UNIT, true);
    check_within(&rt, MILLION, None, 1, 0, false);
    check_within(&rt, MILLION, None, 0, 0, true);
    check_within(&rt, MILLION, Some(1), 1, 0, true);
    check_within(&rt, Some(1), None, UNIT + 2, UNIT, false);
    check_within(&rt, Some(i128::MAX), None, TEAM, JUDGE, true);
    check_within(&rt, Some(i128::MAX), None, 1, 0, false);
    check_within(&rt, Some(i128::MIN), None, JUDGE, JUDGE, false);
    check_within(&rt, Some(i128::MIN), None, 0, 0, true);
    check_within(&rt, None, Some(-1), JUDGE, JUDGE, false);
}
