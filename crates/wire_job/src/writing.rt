ghost use Rattle.std.specs.Prelude.{◌≡◌, ◌++◌, Some, IfOk, OnOk, string_bytes};
ghost use Rattle.case_run.specs.Cases.{test_case, ByDefault, ByProgram};
ghost use Rattle.wire_job.specs.Writing.{coded, quoted, units_text, switch_text, flags_with, flags_text, image_field, first_fields, number_fields, last_field, text_with, job_text};

use crate::parts::JobPart;
use base64::engine::general_purpose::STANDARD;
use case_run::{Case, Check};
use default_validator::Flags;
use farm_kinds::{Limits, NoMemory, Task, Text};
use std::alloc::{AllocError, Global};

/// No job's keys, numbers and punctuation take more bytes.
const KEYS: usize = 320;

/// Puts bytes in Base64 (RFC 4648, section 4) behind a text.
fn push_coded(text: &mut String, bytes: &[u8]) -> Result<(), AllocError>
    ensures { OnOk result (string_bytes text.new ≡ string_bytes text.old ++ coded bytes.now) }
{
    STANDARD.encode_string(bytes, text)
}

/// Bytes in Base64 between quotes.
fn quoted(alloc: Global, bytes: &[u8]) -> Result<String, AllocError>
    ensures { IfOk result (λ text. string_bytes text ≡ quoted (coded bytes.now)) }
{
    let text = STANDARD.encode(alloc, bytes)?;
    format!(in alloc; "\"{text}\"")
}

/// A number between quotes.
fn quoted_number(alloc: Global, units: i128) -> Result<String, AllocError>
    ensures { IfOk result (λ text. string_bytes text ≡ units_text (Some units)) }
{
    format!(in alloc; "\"{units}\"")
}

/// The units of a part of a tolerance.
fn units_text(alloc: Global, units: Option<i128>) -> Result<String, AllocError>
    ensures { IfOk result (λ text. string_bytes text ≡ units_text units) }
{
    match units {
        None => String::from_str(alloc, "null"),
        Some(units) => quoted_number(alloc, units),
    }
}

/// Whether letters or white space count.
fn switch_text(on: bool) -> &'static str
    ensures { result.now ≡ switch_text on }
{
    if on { "true" } else { "false" }
}

/// Flags of these four texts.
fn flags_with(
    alloc: Global,
    absolute: &str,
    case: &str,
    relative: &str,
    space: &str,
) -> Result<String, AllocError>
    ensures { IfOk result (λ text. string_bytes text ≡ flags_with absolute.now case.now relative.now space.now) }
{
    format!(in alloc;
        "{{\"absolute\":{absolute},\"case\":{case},\"relative\":{relative},\"space\":{space}}}"
    )
}

/// The flags of the default output validator.
fn flags_text(alloc: Global, flags: Flags) -> Result<String, AllocError>
    ensures { IfOk result (λ text. string_bytes text ≡ flags_text flags) }
{
    let absolute = units_text(alloc, flags.tolerance.absolute)?;
    let relative = units_text(alloc, flags.tolerance.relative)?;
    flags_with(
        alloc,
        absolute.as_str(),
        switch_text(flags.case),
        relative.as_str(),
        switch_text(flags.space),
    )
}

/// Puts the field `image` behind a text, where it is asked for.
fn push_image(text: &mut String, part: JobPart, image: &[u8]) -> Result<(), AllocError>
    ensures { OnOk result (string_bytes text.new ≡ string_bytes text.old ++ image_field part image.now) }
{
    if part == JobPart::Whole {
        text.push_str(",\"image\":\"")?;
        push_coded(text, image)?;
        text.push_str("\"")?;
    }
    Ok(())
}

/// Puts the fields from `answer` to `input` of a case behind a text, with this check and these flags.
fn push_case(
    text: &mut String,
    part: JobPart,
    case: &Case<'_>,
    check: &str,
    flags: &str,
) -> Result<(), AllocError>
    ensures { let c = test_case case.now in OnOk result (string_bytes text.new ≡ string_bytes text.old
        ++ first_fields (coded c.answer) check.now flags.now (image_field part c.image) (coded c.input)) }
{
    text.push_str("{\"answer\":\"")?;
    push_coded(text, case.answer)?;
    text.push_str("\",\"check\":\"")?;
    text.push_str(check)?;
    text.push_str("\",\"flags\":")?;
    text.push_str(flags)?;
    push_image(text, part, case.image)?;
    text.push_str(",\"input\":\"")?;
    push_coded(text, case.input)?;
    text.push_str("\"")?;
    Ok(())
}

/// The fields from `instructions` to `test`.
fn number_fields(alloc: Global, limits: Limits, task: Task) -> Result<String, AllocError>
    ensures { IfOk result (λ text. string_bytes text ≡ number_fields limits task) }
{
    let instructions = limits.instructions;
    let judging = task.judging;
    let output = limits.output;
    let pages = limits.pages;
    let test = task.test;
    format!(in alloc;
        ",\"instructions\":{instructions},\"judging\":{judging},\"output\":{output},\"pages\":{pages},\"reply\":\"job\",\"test\":{test}"
    )
}

/// Puts the field `validator` and the end of the object behind a text.
fn push_validator(text: &mut String, validator: &[u8]) -> Result<(), AllocError>
    ensures { OnOk result (string_bytes text.new ≡ string_bytes text.old ++ last_field (coded validator.now)) }
{
    text.push_str(",\"validator\":\"")?;
    push_coded(text, validator)?;
    text.push_str("\"}")?;
    Ok(())
}

/// At least as many bytes as these take in Base64.
fn coded_len(bytes: &[u8]) -> usize {
    bytes.len() / 3 * 4 + 4
}

/// At least as many bytes as a job takes, but for its validator.
fn job_len(part: JobPart, case: &Case<'_>, flags: &str) -> usize {
    let image = match part {
        JobPart::Whole => coded_len(case.image),
        JobPart::Rest => 0,
    };
    coded_len(case.answer)
        .saturating_add(coded_len(case.input))
        .saturating_add(image)
        .saturating_add(flags.len())
        .saturating_add(KEYS)
}

/// A job whose output is checked by the default output validator.
fn default_text(
    alloc: Global,
    part: JobPart,
    task: Task,
    case: &Case<'_>,
    flags: Flags,
) -> Result<Vec<u8>, AllocError>
    ensures { IfOk result (λ text. text.items ≡ text_with (ByDefault flags) part task (test_case case.now)) }
{
    let flags = flags_text(alloc, flags)?;
    let numbers = number_fields(alloc, case.limits, task)?;
    let mut text = String::with_capacity(alloc, job_len(part, case, flags.as_str()))?;
    push_case(&mut text, part, case, "default", flags.as_str())?;
    text.push_str(numbers.as_str())?;
    text.push_str("}")?;
    Ok(text.into_bytes())
}

/// A job whose output is checked by a program.
fn custom_text(
    alloc: Global,
    part: JobPart,
    task: Task,
    case: &Case<'_>,
    validator: &[u8],
    flags: &[u8],
) -> Result<Vec<u8>, AllocError>
    ensures { IfOk result (λ text. text.items ≡ text_with (ByProgram validator.now flags.now) part task (test_case case.now)) }
{
    let flags = quoted(alloc, flags)?;
    let numbers = number_fields(alloc, case.limits, task)?;
    let len = job_len(part, case, flags.as_str()).saturating_add(coded_len(validator));
    let mut text = String::with_capacity(alloc, len)?;
    push_case(&mut text, part, case, "custom", flags.as_str())?;
    text.push_str(numbers.as_str())?;
    push_validator(&mut text, validator)?;
    Ok(text.into_bytes())
}

/// The bytes of so much of a job.
fn job_bytes(
    alloc: Global,
    part: JobPart,
    task: Task,
    case: &Case<'_>,
) -> Result<Vec<u8>, AllocError>
    ensures { IfOk result (λ text. text.items ≡ job_text part task (test_case case.now)) }
{
    match case.check {
        Check::Default(flags) => default_text(alloc, part, task, case, flags),
        Check::Custom { image, flags } => custom_text(alloc, part, task, case, image, flags),
    }
}

/// A job, or so much of it, as compact JSON, its keys in the order of their bytes.
pub fn write_job(
    alloc: Global,
    part: JobPart,
    task: Task,
    case: &Case<'_>,
) -> Result<Text, NoMemory>
    ensures { IfOk result (λ text. text ≡ job_text part task (test_case case.now)) }
{
    let bytes = job_bytes(alloc, part, task, case)?;
    Ok(Text::from_vec(bytes))
}
