//! How a run is judged.
ghost use Rattle.std.specs.Prelude.{◌≡◌, true};
ghost use Rattle.case_run.specs.Cases.{CanRun, test_case};
ghost use Rattle.case_run.specs.Images.{is_image};
ghost use Rattle.farm_kinds.specs.Limits.{is_raw_image};

use crate::words::Checked;
use case_run::{Case, Check, run_case};
use default_validator::{Flags, wide_token};
use farm_kinds::{Limits, raw_image};
use package_notes::{NO_RAW_IMAGE, flag_text, wide_token_text};
use people::Plain;
use std::{fs, io};

/// Runs the image once more as a test of a problem, says the verdict, and gives the status.
pub fn judge(
    rt: &HostRuntime,
    limits: Limits,
    image: &[u8],
    input: &[u8],
    check: &Checked<'_>,
) -> io::Result<u8>
    requires { is_image image.now ≡ true }
{
    let path = check.answer;
    let answer = match fs::read(rt, path) {
        Ok(answer) => answer,
        Err(error) => {
            let path = Plain(path);
            eprintln!(rt; "rvrun: cannot read the answer {path}: {error}")?;
            return Ok(1);
        }
    };
    match check.validator {
        Some(validator) => judge_by_program(
            rt,
            limits,
            image,
            input,
            answer.as_slice(),
            validator,
            check.flags,
        ),
        None => judge_by_default(rt, limits, image, input, answer.as_slice(), check),
    }
}

/// Judges by the validator at the path.
fn judge_by_program(
    rt: &HostRuntime,
    limits: Limits,
    image: &[u8],
    input: &[u8],
    answer: &[u8],
    path: &str,
    flags: &str,
) -> io::Result<u8>
    requires { is_image image.now ≡ true }
{
    let validator = match fs::read(rt, path) {
        Ok(validator) => validator,
        Err(error) => {
            let path = Plain(path);
            eprintln!(rt; "rvrun: cannot read the validator {path}: {error}")?;
            return Ok(1);
        }
    };
    if !raw_image(validator.as_slice()) {
        let path = Plain(path);
        eprintln!(rt; "rvrun: {path}: {NO_RAW_IMAGE}")?;
        return Ok(1);
    }
    let flags = flags.as_bytes();
    tell_by_program(
        rt,
        limits,
        image,
        input,
        answer,
        validator.as_slice(),
        flags,
    )
}

/// Says the verdict of a validator.
fn tell_by_program<'a>(
    rt: &HostRuntime,
    limits: Limits,
    image: &'a [u8],
    input: &'a [u8],
    answer: &'a [u8],
    validator: &'a [u8],
    flags: &'a [u8],
) -> io::Result<u8>
    requires image { is_image image.now ≡ true }
    requires validator { is_raw_image validator.now ≡ true }
{
    let check = Check::Custom {
        image: validator,
        flags,
    };
    tell_verdict(
        rt,
        &Case {
            image,
            input,
            answer,
            check,
            limits,
        },
    )
}

/// Judges by the default validator.
fn judge_by_default<'a>(
    rt: &HostRuntime,
    limits: Limits,
    image: &'a [u8],
    input: &'a [u8],
    answer: &'a [u8],
    checked: &Checked<'_>,
) -> io::Result<u8>
    requires { is_image image.now ≡ true }
{
    let flags = match Flags::read(checked.flags.as_bytes()) {
        Ok(flags) => flags,
        Err(fault) => {
            let text = flag_text(rt.alloc(), fault)?;
            eprintln!(rt; "rvrun: {text}")?;
            return Ok(1);
        }
    };
    if let Some(at) = wide_token(&flags, answer) {
        let path = Plain(checked.answer);
        let text = wide_token_text(rt.alloc(), at)?;
        eprintln!(rt; "rvrun: {path}: {text}")?;
        return Ok(1);
    }
    let check = Check::Default(flags);
    tell_verdict(
        rt,
        &Case {
            image,
            input,
            answer,
            check,
            limits,
        },
    )
}

/// Runs the case and says its verdict.
fn tell_verdict(rt: &HostRuntime, case: &Case<'_>) -> io::Result<u8>
    requires { CanRun (test_case case.now) }
{
    match run_case(rt.alloc(), case) {
        Ok(kind) => {
            let name = kind.name();
            eprintln!(rt; "verdict {name}")?;
        }
        Err(_) => rt.eprintln("verdict nomemory")?,
    }
    Ok(0)
}
