ghost use Rattle.std.specs.Prelude.{◌≡◌, ◌+◌, ◌∷◌, ◌≤◌, ◌<◌, ◌^◌, IfOk, Err, MatchResult, length};
ghost use Rattle.default_validator.specs.Pieces.{tokens};
ghost use Rattle.default_validator.specs.Flags.{part_of, with_amount, flags_from, flags_of};

use crate::cuts::next_token;
use decimal_compare::{Part, Tolerance, read_amount};

/// How outputs are compared.
#[derive(Clone, Copy, Debug, PartialEq, Eq)]
pub struct Flags {
    /// Upper and lower case letters differ.
    pub case: bool,
    /// The white space before, between and after the tokens counts, byte by byte.
    pub space: bool,
    /// How far numbers may differ. Where no part is set, numbers are compared as words.
    pub tolerance: Tolerance,
}

/// The first faulty word of the flags, by its number from 1.
#[derive(Clone, Copy, Debug, PartialEq, Eq)]
pub enum FlagFault {
    /// The word is no flag.
    Unknown(u64),
    /// The flag takes a value, and no word follows it.
    NoValue(u64),
    /// The word is the value of a tolerance, and is no amount that it may have.
    BadTolerance(u64),
}

fn part_of(word: &[u8]) -> Option<Part>
    ensures { result ≡ part_of word.now }
{
    if word == b"float_relative_tolerance".as_slice() {
        Some(Part::Relative)
    } else if word == b"float_absolute_tolerance".as_slice() {
        Some(Part::Absolute)
    } else if word == b"float_tolerance".as_slice() {
        Some(Part::Both)
    } else {
        None
    }
}

/// What is left to read, once the flag in front was read.
#[derive(Clone, Copy)]
struct Reading<'a> {
    flags: Flags,
    number: u64,
    rest: &'a [u8],
}

impl Flags {
    fn with_amount(self, part: Part, amount: i128) -> Flags
        ensures { result ≡ with_amount self part amount }
    {
        let mut flags = self;
        match part {
            Part::Relative => flags.tolerance.relative = Some(amount),
            Part::Absolute => flags.tolerance.absolute = Some(amount),
            Part::Both => {
                flags.tolerance.relative = Some(amount);
                flags.tolerance.absolute = Some(amount);
            }
        }
        flags
    }

    /// Reads the words of a validator's flags, which are cut at the white space of the
    /// validator. A flag that is given again sets its value again.
    pub fn read(text: &[u8]) -> Result<Flags, FlagFault>
        ensures { result ≡ flags_of text.now }
    {
        let mut flags = Flags {
            case: false,
            space: false,
            tolerance: Tolerance {
                relative: None,
                absolute: None,
            },
        };
        let mut number = 1;
        let mut rest = text;
        while let Some((word, after)) = next_token(rest) {
            let reading = read_flag(flags, number, word, after)?;
            flags = reading.flags;
            number = reading.number;
            rest = reading.rest;
        }
        Ok(flags)
    }
}

/// Reads the flag that the word is, with its value where it takes one.
fn read_flag<'a>(
    flags: Flags,
    number: u64,
    word: &[u8],
    rest: &'a [u8],
) -> Result<Reading<'a>, FlagFault>
    requires { number + length rest.now + 2 < 2 ^ 64 }
    ensures value { MatchResult result
        (λ r. flags_from flags number (word.now ∷ tokens rest.now) ≡ flags_from r.flags r.number (tokens r.rest.now))
        (λ fault. flags_from flags number (word.now ∷ tokens rest.now) ≡ Err fault) }
    ensures shorter { IfOk result (λ r. length r.rest.now ≤ length rest.now) }
    ensures count { IfOk result (λ r. r.number + length r.rest.now ≤ number + 1 + length rest.now) }
{
    if word == b"case_sensitive".as_slice() {
        let flags = Flags {
            case: true,
            ..flags
        };
        return Ok(Reading {
            flags,
            number: number + 1,
            rest,
        });
    }
    if word == b"space_change_sensitive".as_slice() {
        let flags = Flags {
            space: true,
            ..flags
        };
        return Ok(Reading {
            flags,
            number: number + 1,
            rest,
        });
    }
    let Some(part) = part_of(word) else {
        return Err(FlagFault::Unknown(number));
    };
    let Some((value, rest)) = next_token(rest) else {
        return Err(FlagFault::NoValue(number));
    };
    let Ok(amount) = read_amount(part, value) else {
        return Err(FlagFault::BadTolerance(number + 1));
    };
    let flags = flags.with_amount(part, amount);
    Ok(Reading {
        flags,
        number: number + 2,
        rest,
    })
}
