ghost use Rattle.std.specs.Prelude.{◌≡◌, ◌⊎◌, false, true, Some, None, Ok, Err, IfOk, IfErr};
ghost use Rattle.serde_json.specs.View.{view};
ghost use Rattle.wire_json.specs.declared.bodies.Body.TheVariants as body;
ghost use Rattle.wire_json.specs.Fields.{IsReading};
ghost use Rattle.wire_json.specs.Strings.{has_too_long_strings};
ghost use Rattle.wire_json.specs.Bodies.{begins_value, has_too_many_values, in_object, object_of, host_body, fetch_body, run_body, held_body, actor_body, rejudge_body, body_of, has_fields};

use crate::bodies::Body;
use crate::faults::{BodyFault, Field};
use crate::fields::{kind_at, max_at, name_at, number_at, submissions_at, who_at};
use crate::routes::Route;
use crate::strings::has_too_long_strings;
use serde_json::{Map, Value};
use std::alloc::Global;

/// The object that a body is. An empty body counts as `{}`.
pub fn object_of(alloc: Global, bytes: &[u8]) -> Result<Value, BodyFault>
    ensures ok { IfOk result (λ v. object_of bytes.now ≡ Some (view v)) }
    ensures not_json { result ≡ Err BodyFault.NotJson → object_of bytes.now ≡ None }
    ensures err { IfErr result (λ e. (e ≡ BodyFault.NotJson) ⊎ (e ≡ BodyFault.NoMemory)) }
{
    if bytes.is_empty() {
        return Ok(Value::Object(Map::new(alloc)));
    }
    match Value::from_slice(alloc, bytes) {
        Ok(value) => {
            if value.is_object() {
                return Ok(value);
            }
            Err(BodyFault::NotJson)
        }
        Err(fault) => {
            if fault.is_memory() {
                return Err(BodyFault::NoMemory);
            }
            Err(BodyFault::NotJson)
        }
    }
}

/// How many bytes of a body may begin a value.
const MOST_VALUES: usize = 131_072;

/// Whether the byte begins a list, an object, or what stands behind their first value.
fn begins_value(b: u8) -> bool
    ensures { result ≡ begins_value b }
{
    b == b',' || b == b'[' || b == b'{'
}

/// Whether a body has more values than are read.
fn has_too_many_values(bytes: &[u8]) -> bool
    ensures { result ≡ has_too_many_values bytes.now }
{
    bytes.iter().filter(|b| begins_value(**b)).count() > MOST_VALUES
}

/// The object that a body is, unless it has more values or longer strings than are read.
fn fields_of(alloc: Global, bytes: &[u8]) -> Result<Value, BodyFault>
    ensures ok { IfOk result (λ v. (has_too_many_values bytes.now ≡ false) × (has_too_long_strings bytes.now ≡ false) × (object_of bytes.now ≡ Some (view v))) }
    ensures too_many { result ≡ Err BodyFault.TooManyValues → has_too_many_values bytes.now ≡ true }
    ensures too_long { result ≡ Err BodyFault.TooLongStrings → (has_too_many_values bytes.now ≡ false) × (has_too_long_strings bytes.now ≡ true) }
    ensures not_json { result ≡ Err BodyFault.NotJson → (has_too_many_values bytes.now ≡ false) × (has_too_long_strings bytes.now ≡ false) × (object_of bytes.now ≡ None) }
    ensures err { IfErr result (λ e. (e ≡ BodyFault.TooManyValues) ⊎ (e ≡ BodyFault.TooLongStrings) ⊎ (e ≡ BodyFault.NotJson) ⊎ (e ≡ BodyFault.NoMemory)) }
{
    if has_too_many_values(bytes) {
        return Err(BodyFault::TooManyValues);
    }
    if has_too_long_strings(bytes) {
        return Err(BodyFault::TooLongStrings);
    }
    object_of(alloc, bytes)
}

/// The name of a judgehost.
fn host_body(fields: &Value) -> Result<Body, BodyFault>
    ensures { result ≡ host_body (view fields.now) }
{
    let hostname = name_at(fields, Field::Hostname)?;
    Ok(Body::Host { hostname })
}

/// The name of a judgehost, and how many tests it takes at most.
fn fetch_body(fields: &Value) -> Result<Body, BodyFault>
    ensures { result ≡ fetch_body (view fields.now) }
{
    let hostname = name_at(fields, Field::Hostname)?;
    let max = max_at(fields)?;
    Ok(Body::Fetch { hostname, max })
}

/// The result of one test.
fn run_body(fields: &Value) -> Result<Body, BodyFault>
    ensures { result ≡ run_body (view fields.now) }
{
    let hostname = name_at(fields, Field::Hostname)?;
    let judging = number_at(fields, Field::Judging)?;
    let test = number_at(fields, Field::Test)?;
    let kind = kind_at(fields)?;
    Ok(Body::Run {
        hostname,
        judging,
        test,
        kind,
    })
}

/// The task that a judgehost holds.
fn held_body(fields: &Value) -> Result<Body, BodyFault>
    ensures { result ≡ held_body (view fields.now) }
{
    let hostname = name_at(fields, Field::Hostname)?;
    let judging = number_at(fields, Field::Judging)?;
    let test = number_at(fields, Field::Test)?;
    Ok(Body::Held {
        hostname,
        judging,
        test,
    })
}

/// Who acts.
fn actor_body(fields: &Value) -> Result<Body, BodyFault>
    ensures { result ≡ actor_body (view fields.now) }
{
    let who = who_at(fields)?;
    Ok(Body::Actor { who })
}

/// The submissions that are to be judged anew, and who acts.
fn rejudge_body(alloc: Global, fields: &Value) -> Result<Body, BodyFault>
    ensures { IsReading (rejudge_body (view fields.now)) result }
{
    let submissions = submissions_at(alloc, fields)?;
    let who = who_at(fields)?;
    Ok(Body::Rejudge { submissions, who })
}

/// What the body of this route says, or its first fault. The fields are looked at in the order of the
/// route's list; others are ignored, and of a field that stands more than once the last value counts.
///
/// A body without fields is not looked at. An empty body counts as `{}`. One with too many values or too long strings is
/// refused before it is read, so that what is held beside it is bounded.
pub fn read_body(alloc: Global, route: Route, bytes: &[u8]) -> Result<Body, BodyFault>
    ensures said { IsReading (body_of route bytes.now) result }
    ensures unread { has_fields route ≡ false → result ≡ Ok body.Empty }
{
    match route {
        Route::Hosts | Route::Down => host_body(&fields_of(alloc, bytes)?),
        Route::FetchWork => fetch_body(&fields_of(alloc, bytes)?),
        Route::AddRun => run_body(&fields_of(alloc, bytes)?),
        Route::Renew => held_body(&fields_of(alloc, bytes)?),
        Route::Verify(_) | Route::Ask(_) => actor_body(&fields_of(alloc, bytes)?),
        Route::Apply(_) | Route::Cancel(_) => actor_body(&fields_of(alloc, bytes)?),
        Route::Rejudgings => rejudge_body(alloc, &fields_of(alloc, bytes)?),
        Route::Judgement(_) | Route::Submission(_) | Route::Rejudging(_) => Ok(Body::Empty),
        Route::Job { .. } | Route::JobRest { .. } => Ok(Body::Empty),
        Route::Board | Route::Audit => Ok(Body::Empty),
    }
}
