ghost use Rattle.std.specs.Prelude.{◌≡◌, ◌≤◌, Some, IfSome, IfOk, is_some, codes, option_and_then};
ghost use Rattle.serde_json.specs.View.{view};
ghost use Rattle.serde_json.specs.Find.{get, as_bool};
ghost use Rattle.wire_json.specs.Fields.{whole_in, number_in};
ghost use Rattle.wire_job.specs.declared.faults.JobField.TheVariants as field;
ghost use Rattle.wire_job.specs.JobFields.{IsReading, bytes_in, decoded_bytes, word_in, way_in, way_named, units_in, flags_in, needed, said};

use crate::faults::{JobFault, JobField};
use crate::units::units_of;
use base64::DecodeAllocError;
use base64::engine::general_purpose::STANDARD;
use decimal_compare::Tolerance;
use default_validator::Flags;
use farm_kinds::Text;
use serde_json::Value;
use std::alloc::Global;
use wire_json::whole_in;

/// How an output is checked.
#[derive(Clone, Copy, Debug, PartialEq, Eq)]
pub enum Way {
    /// By the default output validator.
    Default,
    /// By a program of the problem's own.
    Custom,
}

/// The whole number in this field, which has to be there.
pub fn whole_at(body: &Value, field: JobField, least: u64, most: u64) -> Result<u64, JobFault>
    ensures value { result ≡ needed field (whole_in least most) (view body.now) }
    ensures most { IfOk result (λ n. n ≤ most) }
{
    match body.get(field.name()) {
        None => Err(JobFault::MissingField { name: field }),
        Some(value) => match whole_in(value, least, most) {
            None => Err(JobFault::BadField { name: field }),
            Some(n) => Ok(n),
        },
    }
}

/// The number of 32 bits in this field, which has to be there.
pub fn number_at(body: &Value, field: JobField) -> Result<u32, JobFault>
    ensures { result ≡ needed field number_in (view body.now) }
{
    match whole_at(body, field, 0, 4_294_967_295) {
        Ok(n) => Ok(n as u32),
        Err(fault) => Err(fault),
    }
}

/// The bytes that a text in Base64 stands for.
fn decoded(alloc: Global, field: JobField, text: &str) -> Result<Text, JobFault>
    ensures { IsReading (said field (decoded_bytes text.now)) result }
{
    match STANDARD.decode(alloc, text.as_bytes()) {
        Ok(bytes) => Ok(Text::from_vec(bytes)),
        Err(DecodeAllocError::OutOfMemory) => Err(JobFault::NoMemory),
        Err(DecodeAllocError::DecodeError(_)) => Err(JobFault::BadField { name: field }),
    }
}

/// The bytes in this field, which has to be there.
pub fn bytes_at(alloc: Global, body: &Value, field: JobField) -> Result<Text, JobFault>
    ensures { IsReading (needed field bytes_in (view body.now)) result }
{
    match body.get(field.name()) {
        None => Err(JobFault::MissingField { name: field }),
        Some(value) => match value.as_str() {
            None => Err(JobFault::BadField { name: field }),
            Some(text) => decoded(alloc, field, text),
        },
    }
}

/// Whether a value is this text.
fn is_word(value: &Value, word: &str) -> bool
    ensures { result ≡ is_some (word_in word.now (view value.now)) }
{
    match value.as_str() {
        None => false,
        Some(text) => text == word,
    }
}

/// That the field `reply` is `job`.
pub fn reply_at(body: &Value) -> Result<(), JobFault>
    ensures { result ≡ needed field.Reply (word_in (codes "job")) (view body.now) }
{
    match body.get(JobField::Reply.name()) {
        None => Err(JobFault::MissingField {
            name: JobField::Reply,
        }),
        Some(value) => {
            if is_word(value, "job") {
                return Ok(());
            }
            Err(JobFault::BadField {
                name: JobField::Reply,
            })
        }
    }
}

/// How the output is checked, by this name.
fn way_named(text: &str) -> Option<Way>
    ensures { result ≡ way_named text.now }
{
    if text == "default" {
        return Some(Way::Default);
    }
    if text == "custom" {
        return Some(Way::Custom);
    }
    None
}

/// How the output is checked, by the field `check`.
pub fn way_at(body: &Value) -> Result<Way, JobFault>
    ensures { result ≡ needed field.Check way_in (view body.now) }
{
    match body.get(JobField::Check.name()) {
        None => Err(JobFault::MissingField {
            name: JobField::Check,
        }),
        Some(value) => match way_in(value) {
            None => Err(JobFault::BadField {
                name: JobField::Check,
            }),
            Some(way) => Ok(way),
        },
    }
}

/// How the output is checked. None where the value says no way.
fn way_in(value: &Value) -> Option<Way>
    ensures { result ≡ way_in (view value.now) }
{
    let text = value.as_str()?;
    way_named(text)
}

/// The units of a part of a tolerance. None where the value says none.
fn units_in(value: &Value) -> Option<Option<i128>>
    ensures { result ≡ units_in (view value.now) }
{
    match value {
        Value::Null => Some(None),
        Value::String(text) => match units_of(text.as_str()) {
            None => None,
            Some(units) => Some(Some(units)),
        },
        _ => None,
    }
}

/// The units of a part of a tolerance, at this key.
fn units_at(flags: &Value, key: &str) -> Option<Option<i128>>
    ensures { result ≡ option_and_then units_in (get key.now (view flags.now)) }
{
    let value = flags.get(key)?;
    units_in(value)
}

/// Whether letters or white space count, at this key.
fn switch_at(flags: &Value, key: &str) -> Option<bool>
    ensures { result ≡ option_and_then as_bool (get key.now (view flags.now)) }
{
    let value = flags.get(key)?;
    value.as_bool()
}

/// The flags of the default output validator that a value is. None where it is none.
fn flags_in(value: &Value) -> Option<Flags>
    ensures { result ≡ flags_in (view value.now) }
{
    let absolute = units_at(value, "absolute")?;
    let relative = units_at(value, "relative")?;
    let case = switch_at(value, "case")?;
    let space = switch_at(value, "space")?;
    Some(Flags {
        case,
        space,
        tolerance: Tolerance { relative, absolute },
    })
}

/// The flags of the default output validator in the field `flags`, which has to be there.
pub fn flags_at(body: &Value) -> Result<Flags, JobFault>
    ensures { result ≡ needed field.Flags flags_in (view body.now) }
{
    match body.get(JobField::Flags.name()) {
        None => Err(JobFault::MissingField {
            name: JobField::Flags,
        }),
        Some(value) => match flags_in(value) {
            None => Err(JobFault::BadField {
                name: JobField::Flags,
            }),
            Some(flags) => Ok(flags),
        },
    }
}
