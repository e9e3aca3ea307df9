ghost use Rattle.std.specs.Prelude.{◌≡◌, ◌≢◌, IfOk, string_bytes};
ghost use Rattle.serde_json.specs.View.{view};
ghost use Rattle.serde_json.specs.Written.{compact_text};
ghost use Rattle.wire_json.specs.Fields.{field_name};
ghost use Rattle.wire_json.specs.FaultTexts.{why_text, json_of_fault};

use farm_kinds::{NoMemory, Text};
use serde_json::{Value, json};
use std::alloc::{AllocError, Global};

/// A field of a body.
#[derive(Clone, Copy, Debug, PartialEq, Eq)]
pub enum Field {
    /// `hostname`: the name of a judgehost.
    Hostname,
    /// `max`: how many tests a judgehost takes at most, from 1 to 16.
    Max,
    /// `judging`: the number of a judging.
    Judging,
    /// `test`: the rank of a test.
    Test,
    /// `result`: the kind of a result.
    Result,
    /// `submissions`: a list of numbers of submissions.
    Submissions,
    /// `who`: the name of who acts.
    Who,
}

impl Field {
    /// The field's key in a body.
    pub fn name(self) -> &'static str
        ensures { result.now ≡ field_name self }
    {
        match self {
            Field::Hostname => "hostname",
            Field::Max => "max",
            Field::Judging => "judging",
            Field::Test => "test",
            Field::Result => "result",
            Field::Submissions => "submissions",
            Field::Who => "who",
        }
    }
}

/// Why a body says nothing.
#[derive(Clone, Copy, Debug, PartialEq, Eq)]
pub enum BodyFault {
    /// The body has more than 131,072 bytes with which a list, an object, or a value behind the first of one begins. No
    /// request needs as many, and reading them would take many times the body's size.
    TooManyValues,
    /// The strings of the body have more than 1,048,576 bytes. No field takes one of more than 32.
    TooLongStrings,
    /// The body is no JSON text (RFC 8259) in UTF-8, is nested deeper than 127, or is no object.
    NotJson,
    /// The body lacks the field `name`.
    MissingField { name: Field },
    /// The value of the field `name` is none that it takes.
    BadField { name: Field },
    /// No memory was left.
    NoMemory,
}

impl From<NoMemory> for BodyFault {
    ghost use Rattle.wire_json.specs.declared.faults.BodyFault.TheVariants.{NoMemory};

    ghost from_gives = { λ _ e. e ≡ NoMemory };

    fn from(_: NoMemory) -> BodyFault {
        BodyFault::NoMemory
    }
}

/// What is wrong with a body, in words.
fn why_text(alloc: Global, fault: BodyFault) -> Result<String, AllocError>
    requires { fault ≢ BodyFault.NoMemory }
    ensures { IfOk result (λ text. string_bytes text ≡ why_text fault) }
{
    match fault {
        BodyFault::TooManyValues => String::from_str(alloc, "too-many-values"),
        BodyFault::TooLongStrings => String::from_str(alloc, "too-long-strings"),
        BodyFault::NotJson => String::from_str(alloc, "not-json"),
        BodyFault::MissingField { name } => format!(in alloc; "missing {}", name.name()),
        BodyFault::BadField { name } => format!(in alloc; "bad {}", name.name()),
        BodyFault::NoMemory => unreachable!(),
    }
}

/// The answer to a body with this fault, as a JSON value.
fn fault_value(alloc: Global, fault: BodyFault) -> Result<Value, AllocError>
    requires { fault ≢ BodyFault.NoMemory }
    ensures { IfOk result (λ v. view v ≡ json_of_fault fault) }
{
    let why = why_text(alloc, fault)?;
    json!(in alloc; {"reply": "bad-body", "why": why})
}

/// The answer to a body with this fault, as compact JSON.
pub fn fault_json(alloc: Global, fault: &BodyFault) -> Result<Text, NoMemory>
    requires { fault.now ≢ BodyFault.NoMemory }
    ensures { IfOk result (λ text. text ≡ compact_text (json_of_fault fault.now)) }
{
    let value = fault_value(alloc, *fault)?;
    Ok(Text::from_vec(value.to_vec(alloc)?))
}
