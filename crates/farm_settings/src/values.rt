ghost use Rattle.std.specs.Prelude.{◌≡◌, ◌≤◌, Ok, Err, IfOk, IfErr, IfSome};
ghost use Rattle.serde_json.specs.View.{view, members_view};
ghost use Rattle.serde_json.specs.Find.{as_bool, as_object};
ghost use Rattle.farm_settings.specs.Values.{whole, kind_of, mode_of, problem_mode_named, problem_mode_of};
ghost use Rattle.farm_settings.specs.Entries.{IsReading, said_at};

use crate::faults::{SettingsErr, bad_value};
use farm_kinds::{Kind, Mode, ProblemMode};
use serde_json::{Map, Value};
use std::alloc::Global;

/// The whole number that a value is. None where it is none in range.
fn whole(value: &Value, least: u64, most: u64) -> Option<u64>
    ensures value { result ≡ whole least most (view value.now) }
    ensures least { IfSome result (λ n. least ≤ n) }
    ensures most { IfSome result (λ n. n ≤ most) }
{
    let n = value.as_u64()?;
    if n < least || most < n {
        return None;
    }
    Some(n)
}

/// The kind that a value names. None where it names none.
fn kind_of(value: &Value) -> Option<Kind>
    ensures { result ≡ kind_of (view value.now) }
{
    let name = value.as_str()?;
    Kind::read(name.as_bytes())
}

/// The mode of a problem that a word names. None where it names none.
fn problem_mode_named(word: &[u8]) -> Option<ProblemMode>
    ensures { result ≡ problem_mode_named word.now }
{
    if word == b"lazy".as_slice() {
        Some(ProblemMode::Lazy)
    } else if word == b"full".as_slice() {
        Some(ProblemMode::Full)
    } else if word == b"on-demand".as_slice() {
        Some(ProblemMode::OnDemand)
    } else {
        None
    }
}

/// The mode of a problem that a value names. None where it names none.
fn problem_mode_of(value: &Value) -> Option<ProblemMode>
    ensures { result ≡ problem_mode_of (view value.now) }
{
    let word = value.as_str()?;
    problem_mode_named(word.as_bytes())
}

/// The mode of a problem at the key, which must be one.
pub(crate) fn problem_mode_at(
    alloc: Global,
    key: &str,
    value: &Value,
) -> Result<ProblemMode, SettingsErr>
    ensures { IsReading (said_at key.now (problem_mode_of (view value.now))) result }
{
    match problem_mode_of(value) {
        Some(mode) => Ok(mode),
        None => Err(bad_value(alloc, key)),
    }
}

/// The whole number at the key, which must be in range.
pub(crate) fn number_at(
    alloc: Global,
    key: &str,
    value: &Value,
    least: u64,
    most: u64,
) -> Result<u64, SettingsErr>
    ensures said { IsReading (said_at key.now (whole least most (view value.now))) result }
    ensures least { IfOk result (λ n. least ≤ n) }
    ensures most { IfOk result (λ n. n ≤ most) }
{
    match whole(value, least, most) {
        Some(n) => Ok(n),
        None => Err(bad_value(alloc, key)),
    }
}

/// Whether the value at the key is true, which must be a flag.
pub(crate) fn flag_at(alloc: Global, key: &str, value: &Value) -> Result<bool, SettingsErr>
    ensures { IsReading (said_at key.now (as_bool (view value.now))) result }
{
    match value.as_bool() {
        Some(flag) => Ok(flag),
        None => Err(bad_value(alloc, key)),
    }
}

/// The kind at the key, which must be one.
pub(crate) fn kind_at(alloc: Global, key: &str, value: &Value) -> Result<Kind, SettingsErr>
    ensures { IsReading (said_at key.now (kind_of (view value.now))) result }
{
    match kind_of(value) {
        Some(kind) => Ok(kind),
        None => Err(bad_value(alloc, key)),
    }
}

/// The entries of the value at the key, which must be an object.
pub(crate) fn entries_at<'a>(
    alloc: Global,
    key: &str,
    value: &'a Value,
) -> Result<&'a Map<String, Value>, SettingsErr>
    ensures bad { IfErr result (λ e. IsReading (said_at key.now (as_object (view value.now))) (Err e)) }
    ensures said { IfOk result (λ entries. said_at key.now (as_object (view value.now)) ≡ Ok (members_view entries.now.entries)) }
{
    match value.as_object() {
        Some(entries) => Ok(entries),
        None => Err(bad_value(alloc, key)),
    }
}

/// Whether judging stops once the verdict is known.
pub(crate) fn mode_of(lazy: bool) -> Mode
    ensures { result ≡ mode_of lazy }
{
    if lazy { Mode::Lazy } else { Mode::Full }
}
