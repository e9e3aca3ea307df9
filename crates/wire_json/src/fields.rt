ghost use Rattle.std.specs.Prelude.{◌≡◌, ◌≤◌, Some, IfSome};
ghost use Rattle.serde_json.specs.View.{view, items_view};
ghost use Rattle.farm_kinds.specs.Names.{jury};
ghost use Rattle.wire_json.specs.declared.faults.Field.TheVariants as field;
ghost use Rattle.wire_json.specs.Fields.{IsReading, whole_in, number_in, max_in, name_in, kind_in, numbers_in, each_number, needed, optional, said};

use crate::faults::{BodyFault, Field};
use farm_kinds::{Kind, Name, NoMemory, Numbers};
use serde_json::Value;
use std::alloc::Global;

/// The whole number that a value is. None where it is none in range.
pub fn whole_in(value: &Value, least: u64, most: u64) -> Option<u64>
    ensures value { result ≡ whole_in least most (view value.now) }
    ensures most { IfSome result (λ n. n ≤ most) }
{
    let n = value.as_u64()?;
    if n < least || most < n {
        return None;
    }
    Some(n)
}

/// The number of 32 bits that a value is. None where it is none.
pub fn number_in(value: &Value) -> Option<u32>
    ensures { result ≡ number_in (view value.now) }
{
    match whole_in(value, 0, 4_294_967_295) {
        Some(n) => Some(n as u32),
        None => None,
    }
}

/// The number from 1 to 16 that a value is. None where it is none.
fn max_in(value: &Value) -> Option<u8>
    ensures { result ≡ whole_in 1 16 (view value.now) }
{
    match whole_in(value, 1, 16) {
        Some(n) => Some(n as u8),
        None => None,
    }
}

/// The name that a value says. None where it says none.
fn name_in(value: &Value) -> Option<Name>
    ensures { result ≡ name_in (view value.now) }
{
    let text = value.as_str()?;
    Name::read(text.as_bytes())
}

/// The kind that a value names. None where it names none.
pub fn kind_in(value: &Value) -> Option<Kind>
    ensures { result ≡ kind_in (view value.now) }
{
    let text = value.as_str()?;
    Kind::read(text.as_bytes())
}

/// The name in this field, which has to be there.
pub fn name_at(body: &Value, field: Field) -> Result<Name, BodyFault>
    ensures { result ≡ needed field name_in (view body.now) }
{
    match body.get(field.name()) {
        None => Err(BodyFault::MissingField { name: field }),
        Some(value) => match name_in(value) {
            None => Err(BodyFault::BadField { name: field }),
            Some(name) => Ok(name),
        },
    }
}

/// The number in this field, which has to be there.
pub fn number_at(body: &Value, field: Field) -> Result<u32, BodyFault>
    ensures { result ≡ needed field number_in (view body.now) }
{
    match body.get(field.name()) {
        None => Err(BodyFault::MissingField { name: field }),
        Some(value) => match number_in(value) {
            None => Err(BodyFault::BadField { name: field }),
            Some(number) => Ok(number),
        },
    }
}

/// The kind in the field `result`, which has to be there.
pub fn kind_at(body: &Value) -> Result<Kind, BodyFault>
    ensures { result ≡ needed field.Result kind_in (view body.now) }
{
    match body.get(Field::Result.name()) {
        None => Err(BodyFault::MissingField {
            name: Field::Result,
        }),
        Some(value) => match kind_in(value) {
            None => Err(BodyFault::BadField {
                name: Field::Result,
            }),
            Some(kind) => Ok(kind),
        },
    }
}

/// The number in the field `max`. None where the field is not there.
pub fn max_at(body: &Value) -> Result<Option<u8>, BodyFault>
    ensures { result ≡ optional field.Max max_in None (view body.now) }
{
    match body.get(Field::Max.name()) {
        None => Ok(None),
        Some(value) => match max_in(value) {
            None => Err(BodyFault::BadField { name: Field::Max }),
            Some(max) => Ok(Some(max)),
        },
    }
}

/// The name in the field `who`, or `jury` where the field is not there.
pub fn who_at(body: &Value) -> Result<Name, BodyFault>
    ensures { result ≡ optional field.Who name_in jury (view body.now) }
{
    match body.get(Field::Who.name()) {
        None => Ok(Name::jury()),
        Some(value) => match name_in(value) {
            None => Err(BodyFault::BadField { name: Field::Who }),
            Some(name) => Ok(name),
        },
    }
}

/// The numbers that the values are. One that is no number is a bad list.
#[tactic(auto, using(crate::proofs::NumberLists::number_missing, crate::proofs::NumberLists::number_more))]
fn each_number(alloc: Global, values: &[Value]) -> Result<Numbers, BodyFault>
    ensures { IsReading (said field.Submissions (each_number (items_view values.now))) result }
{
    let mut numbers = Numbers::new(alloc);
    for value in values {
        let Some(number) = number_in(value) else {
            return Err(BodyFault::BadField {
                name: Field::Submissions,
            });
        };
        numbers.push(number)?;
    }
    Ok(numbers)
}

/// The numbers in the field `submissions`, which has to be there.
pub fn submissions_at(alloc: Global, body: &Value) -> Result<Numbers, BodyFault>
    ensures { IsReading (needed field.Submissions numbers_in (view body.now)) result }
{
    match body.get(Field::Submissions.name()) {
        None => Err(BodyFault::MissingField {
            name: Field::Submissions,
        }),
        Some(value) => match value.as_array() {
            None => Err(BodyFault::BadField {
                name: Field::Submissions,
            }),
            Some(values) => each_number(alloc, values.as_slice()),
        },
    }
}
