ghost use Rattle.std.specs.Prelude.{◌≡◌, ◌≤◌, ◌<◌, IfOk, IfSome, length, IsTrue};
ghost use Rattle.std.specs.List.{prefix_len};
ghost use Rattle.std.specs.Option.{option_map};
ghost use Rattle.problem_settings.specs.DomjudgeIni.{stripped, setting_of, is_quoted, unquoted, fraction_of, milliseconds_of, with_setting, ini_of};
ghost use Rattle.problem_settings.specs.Scalars.{is_digit};
ghost use Rattle.problem_settings.specs.Views.{field_value, line_value};

use crate::bytes::{after_spaces, cut, place_of, trimmed, without_cr, without_mark};
use crate::fields::Field;
use crate::lines::Line;
use crate::scalars::Scalar;

/// What is wrong with `domjudge-problem.ini`.
#[derive(Clone, Copy, Debug, PartialEq, Eq)]
pub enum IniFault {
    /// The line, by its number from 1, has a time limit that is no number of seconds from 0.001 to 1000 with at most
    /// three decimals.
    BadLimit { line: u32 },
}

/// Without the spaces in front and at the end.
fn stripped(text: &[u8]) -> &[u8]
    ensures { result.now ≡ stripped text.now }
{
    trimmed(after_spaces(text))
}

/// The key and the value of a line.
pub(crate) fn setting_of(line: &[u8]) -> Option<Field<'_>>
    ensures { option_map field_value result ≡ setting_of line.now }
{
    let at = place_of(b'=', line)?;
    Some(Field {
        key: stripped(&line[..at]),
        value: stripped(&line[at + 1..]),
    })
}

/// Whether the text stands between two quotes of one kind.
fn is_quoted(text: &[u8]) -> bool
    ensures value { result ≡ is_quoted text.now }
    ensures two { IsTrue result → 2 ≤ length text.now }
{
    let n = text.len();
    if n < 2 {
        return false;
    }
    let (first, last) = (text[0], text[n - 1]);
    (first == b'\'' || first == b'"') && last == first
}

/// Without one pair of single or double quotes.
fn unquoted(value: &[u8]) -> &[u8]
    ensures { result.now ≡ unquoted value.now }
{
    if is_quoted(value) {
        &value[1..value.len() - 1]
    } else {
        value
    }
}

/// How many digits stand in front.
fn digits_len(text: &[u8]) -> usize
    ensures value { result ≡ prefix_len is_digit text.now }
    ensures within { result ≤ length text.now }
{
    for (i, b) in text.iter().enumerate() {
        if !b.is_ascii_digit() {
            return i;
        }
    }
    text.len()
}

/// The thousandths that a point and the digits behind it are.
fn fraction_of(text: &[u8]) -> Option<u32>
    ensures value { result ≡ fraction_of text.now }
    ensures small { IfSome result (λ n. n < 1000) }
{
    let [point, digits @ ..] = text else {
        return Some(0);
    };
    if *point != b'.' || digits.len() > 3 {
        return None;
    }
    let number = Scalar::Plain(digits).number()?;
    match digits.len() {
        1 => Some(number * 100),
        2 => Some(number * 10),
        _ => Some(number),
    }
}

/// The milliseconds that a value is as a number of seconds.
fn milliseconds(value: &[u8]) -> Option<u32>
    ensures value { result ≡ milliseconds_of value.now }
    ensures some { IfSome result (λ ms. 1 ≤ ms) }
    ensures most { IfSome result (λ ms. ms ≤ 1000000) }
{
    let (whole, rest) = value.split_at(digits_len(value));
    let seconds = Scalar::Plain(whole).number()?;
    let fraction = fraction_of(rest)?;
    let ms = seconds * 1000 + fraction;
    if ms < 1 || ms > 1_000_000 {
        return None;
    }
    Some(ms)
}

/// The limit in milliseconds once the line is read, where it was `ms` before.
fn with_setting(line: &Line, ms: u32) -> Result<u32, IniFault>
    requires some { 1 ≤ ms }
    requires most { ms ≤ 1000000 }
    ensures value { result ≡ with_setting (line_value line.now) ms (setting_of line.now.text.now) }
    ensures some { IfOk result (λ ms. 1 ≤ ms) }
    ensures most { IfOk result (λ ms. ms ≤ 1000000) }
{
    let Some(field) = setting_of(line.text) else {
        return Ok(ms);
    };
    if field.key != b"timelimit".as_slice() {
        return Ok(ms);
    }
    match milliseconds(unquoted(field.value)) {
        None => Err(IniFault::BadLimit { line: line.number }),
        Some(ms) => Ok(ms),
    }
}

/// The time limit that the text of `domjudge-problem.ini` sets, in milliseconds: 1,000 where it sets none. The last
/// line that sets it counts, and the first faulty one is the fault.
#[tactic(auto, unfolding(crate::specs::DomjudgeIni::ini_of))]
pub fn read_ini(bytes: &[u8]) -> Result<u32, IniFault>
    requires { length bytes.now ≤ 16777216 }
    ensures said { result ≡ ini_of bytes.now }
    ensures some { IfOk result (λ ms. 1 ≤ ms) }
    ensures most { IfOk result (λ ms. ms ≤ 1000000) }
{
    let mut ms = 1000;
    let mut number = 1;
    let mut left = Some(without_mark(bytes));
    while let Some(text) = left {
        let (whole, behind) = cut(b'\n', text);
        let line = Line {
            number,
            text: without_cr(whole),
        };
        ms = with_setting(&line, ms)?;
        number += 1;
        left = behind;
    }
    Ok(ms)
}
