use crate::rows::{bytes_of, check_row, number, parts_of, word};
use crate::verdicts::verdict;
use default_validator::{FlagFault, Flags, wide_token};
use std::alloc::Global;
use std::test::Fail;

/// Flags, as `bytes_of` reads them, and what is read of them: whether case and space count, and the relative and the
/// absolute tolerance in units of 10^-12, or which word is wrong, from 1.
const FLAGS: &str = concat!(
    " => no no - -\n",
    " \t~ => no no - -\n",
    "case_sensitive => yes no - -\n",
    "\x0bspace_change_sensitive\r~case_sensitive\x0c => yes yes - -\n",
    "float_tolerance 1e-6 => no no 1000000 1000000\n",
    "float_relative_tolerance 1 => no no 1000000000000 -\n",
    "float_absolute_tolerance 1e3 => no no - 1000000000000000\n",
    "float_tolerance 1e-6 float_relative_tolerance 0 => no no 0 1000000\n",
    "float_absolute_tolerance 2 float_absolute_tolerance 3 => no no - 3000000000000\n",
    "float_tolerance => no-value 1\n",
    "case_sensitive float_tolerance  => no-value 2\n",
    "float_tolerance 1e-13 => bad-tolerance 2\n",
    "float_tolerance case_sensitive => bad-tolerance 2\n",
    "float_absolute_tolerance -1 => bad-tolerance 2\n",
    "float_tolerance 1 float_relative_tolerance 2 => bad-tolerance 4\n",
    "fast => unknown 1\n",
    "float_tolerance 1e-13 fast => bad-tolerance 2\n",
    "case_sensitive Case_sensitive float_tolerance => unknown 2\n",
);

fn name_of(set: bool) -> &'static str {
    if set { "yes" } else { "no" }
}

/// Whether a tolerance is the number `wanted`, or there is none where that is `-`.
fn is_amount(amount: Option<i128>, wanted: &str) -> bool {
    match (amount, wanted.parse::<u64>()) {
        (Some(amount), Ok(wanted)) => amount == wanted as i128,
        (None, Err(_)) => wanted == "-",
        _ => false,
    }
}

/// Whether this is read of flags.
fn is_read(read: Result<Flags, FlagFault>, wanted: &str) -> bool {
    let (what, place) = match read {
        Ok(flags) => return are_flags(&flags, wanted),
        Err(FlagFault::NoValue(place)) => ("no-value", place),
        Err(FlagFault::BadTolerance(place)) => ("bad-tolerance", place),
        Err(FlagFault::Unknown(place)) => ("unknown", place),
    };
    word(wanted, 0) == what && number(wanted, 1) as usize == place as usize
}

/// Whether the flags are as `wanted`.
fn are_flags(flags: &Flags, wanted: &str) -> bool {
    word(wanted, 0) == name_of(flags.case)
        && word(wanted, 1) == name_of(flags.space)
        && is_amount(flags.tolerance.relative, word(wanted, 2))
        && is_amount(flags.tolerance.absolute, word(wanted, 3))
}

/// What is wrong of a row of flags, or nothing.
fn wrong_flags(alloc: Global, row: &str) -> &str {
    let (text, wanted) = parts_of(row, " => ");
    let Ok(bytes) = bytes_of(alloc, text) else {
        return "no memory";
    };
    let right = is_read(Flags::read(bytes.as_slice()), wanted);
    drop(bytes);
    if right { "" } else { wanted }
}

#[test]
fn reads_flags(rt: HostRuntime) -> Result<(), Fail> {
    for row in FLAGS.lines() {
        check_row(&rt, row, wrong_flags(rt.alloc(), row));
    }
    Ok(())
}

/// Flags, an answer and an output, as `bytes_of` reads these two, and what the validator says: numbers.
const NUMBERS: &str = concat!(
    "float_tolerance 1e-6|0.0314|3.14000000e-2 => accepted\n",
    "float_tolerance 1e-6|200|2.0e2 => accepted\n",
    "float_tolerance 1e-6|1.0|1 => accepted\n",
    "float_tolerance 1e-6|x 1.0 y|x 1.0000009 y => accepted\n",
    "float_tolerance 1e-6|1.0|one => refused\n",
    "float_tolerance 1e-6|1.0|1.0 1.0 => refused\n",
    "float_tolerance 1e-6|-0|0.0 => accepted\n",
    "float_absolute_tolerance 1e-6|1.0|1.000001 => accepted\n",
    "float_absolute_tolerance 1e-6|1.0|1.000002 => refused\n",
    "float_relative_tolerance 1e-6|3.0|3.000003 => accepted\n",
    "float_relative_tolerance 1e-6|3.0|3.000004 => refused\n",
    "float_relative_tolerance 1e-6|0|1e-12 => refused\n",
    "float_absolute_tolerance 0|1.0|1.0000000000009 => accepted\n",
    "float_absolute_tolerance 0|1.0000000000009|1.0 => accepted\n",
    "float_absolute_tolerance 0|1.0|1.000000000001 => refused\n",
    "float_tolerance 1e-6|1000000000000|1.0e12 => refused\n",
    "float_tolerance 1e-6|1000000000000|1000000000000 => accepted\n",
    "float_tolerance 1e-6|999999999999|1000000000000 => accepted\n",
    "float_tolerance 1|9e11|1e13 => refused\n",
    "|1.0|1 => refused\n",
    "|1e12|1E12 => accepted\n",
    "case_sensitive float_tolerance 0|1e5|1E5 => accepted\n",
);

/// Flags, an answer and an output, written as in `NUMBERS`, and what the validator says: white space and case.
const SPACES: &str = concat!(
    "|a b~|a  b => accepted\n",
    "|a b~|a b => accepted\n",
    "|a b~|A B => accepted\n",
    "|a b~| \t\x0b\x0c\r~a b => accepted\n",
    "|a b~|ab => refused\n",
    "|a b~|a => refused\n",
    "|a~|a b => refused\n",
    "|a b~|a c => refused\n",
    "space_change_sensitive|a b~|a  b~ => refused\n",
    "space_change_sensitive|a b~|a b => refused\n",
    "space_change_sensitive|a b~|a b~ => accepted\n",
    "space_change_sensitive|a b~|A b~ => accepted\n",
    "space_change_sensitive|a b~| a b~ => refused\n",
    "space_change_sensitive|a b|a\tb => refused\n",
    "space_change_sensitive| ~| ~ => accepted\n",
    "space_change_sensitive| ~| => refused\n",
    "case_sensitive|a b~|A b~ => refused\n",
    "case_sensitive|a b~|a  b => accepted\n",
    "|| => accepted\n",
    "|| ~ => accepted\n",
    "||x => refused\n",
    "| |x => refused\n",
    "|@[`{|@[`{ => accepted\n",
    "|@|` => refused\n",
    "|[|{ => refused\n",
    "|a\0b|A\0B => accepted\n",
    "|a\0b|a b => refused\n",
);

fn said(verdict: Option<bool>) -> &'static str {
    match verdict {
        Some(true) => "accepted",
        Some(false) => "refused",
        None => "nothing",
    }
}

/// What the validator says of the flags, the answer and the output of a row, as it should, or else what is wrong.
fn wrong_verdict(alloc: Global, row: &str) -> &str {
    let (texts, wanted) = parts_of(row, " => ");
    let (flags, texts) = parts_of(texts, "|");
    let (answer, output) = parts_of(texts, "|");
    let Ok(answer) = bytes_of(alloc, answer) else {
        return "no memory";
    };
    let Ok(output) = bytes_of(alloc, output) else {
        drop(answer);
        return "no memory";
    };
    let said = said(verdict(flags.as_bytes(), answer.as_slice(), output.as_slice()));
    drop(answer);
    drop(output);
    if said == wanted { "" } else { wanted }
}

#[test]
fn compares_numbers_within_tolerances(rt: HostRuntime) -> Result<(), Fail> {
    for row in NUMBERS.lines() {
        check_row(&rt, row, wrong_verdict(rt.alloc(), row));
    }
    Ok(())
}

#[test]
fn minds_white_space_and_case(rt: HostRuntime) -> Result<(), Fail> {
    assert_eq!(rt; verdict(b"", b"\xc4", b"\xe4"), Some(false));
    for row in SPACES.lines() {
        check_row(&rt, row, wrong_verdict(rt.alloc(), row));
    }
    Ok(())
}

/// Answers, and which of their words is a wide token where there is a tolerance, from 0.
const WIDE: &str = concat!(
    "1e12 => 0\n",
    "1000000000000 => none\n",
    "1000000000000. => 0\n",
    " 1 2.5 -1e12 1e13 => 2\n",
    "999999999999.999999999999 => none\n",
    "1e9999 => 0\n",
    "10000000000000 => none\n",
    "1e12x => none\n",
    " => none\n",
);

/// What is wrong of a row of wide tokens, or nothing.
fn wrong_token(row: &str) -> &str {
    let (answer, wanted) = parts_of(row, " => ");
    let (Ok(tolerant), Ok(plain)) = (Flags::read(b"float_relative_tolerance 0"), Flags::read(b""))
    else {
        return "flags";
    };
    let found = match wide_token(&tolerant, answer.as_bytes()) {
        Some(place) => number(wanted, 0) as usize == place,
        None => wanted == "none",
    };
    if found && wide_token(&plain, answer.as_bytes()).is_none() {
        ""
    } else {
        wanted
    }
}

#[test]
fn finds_wide_tokens(rt: HostRuntime) {
    for row in WIDE.lines() {
        check_row(&rt, row, wrong_token(row));
    }
}
