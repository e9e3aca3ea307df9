ghost use Rattle.std.specs.Prelude.{◌≡◌};
ghost use Rattle.serde_json.specs.View.{view};
ghost use Rattle.wire_job.specs.JobFields.{IsReading};
ghost use Rattle.wire_job.specs.Reading.{limits_in, task_in, check_by, check_in, job_with, image_in, job_in, job_of};
ghost use Rattle.wire_job.specs.Checks.{own_checking, IsCheckRead};

use crate::checking::fault_of;
use crate::faults::{JobFault, JobField};
use crate::fields::{Way, bytes_at, flags_at, number_at, reply_at, way_at, whole_at};
use crate::job::{Job, OwnCheck};
use farm_kinds::{Limits, Task, Text};
use serde_json::Value;
use std::alloc::Global;
use wire_json::{BodyFault, object_of};

/// What the run may use.
fn limits_in(body: &Value) -> Result<Limits, JobFault>
    ensures { result ≡ limits_in (view body.now) }
{
    let instructions = whole_at(body, JobField::Instructions, 0, u64::MAX)?;
    let pages = number_at(body, JobField::Pages)?;
    let output = number_at(body, JobField::Output)?;
    Ok(Limits {
        instructions,
        pages,
        output,
    })
}

/// The judging and the test.
fn task_in(body: &Value) -> Result<Task, JobFault>
    ensures { result ≡ task_in (view body.now) }
{
    let judging = number_at(body, JobField::Judging)?;
    let test = whole_at(body, JobField::Test, 1, 65_535)?;
    Ok(Task {
        judging,
        test: test as u16,
    })
}

/// What the check takes, where it goes this way.
fn check_by(alloc: Global, way: Way, body: &Value) -> Result<OwnCheck, JobFault>
    ensures { IsCheckRead (check_by way (view body.now)) result }
{
    match way {
        Way::Default => {
            let flags = flags_at(body)?;
            Ok(OwnCheck::Default(flags))
        }
        Way::Custom => {
            let flags = bytes_at(alloc, body, JobField::Flags)?;
            let image = bytes_at(alloc, body, JobField::Validator)?;
            Ok(OwnCheck::Custom { image, flags })
        }
    }
}

/// How the output is checked.
fn check_in(alloc: Global, body: &Value) -> Result<OwnCheck, JobFault>
    ensures { IsCheckRead (check_in (view body.now)) result }
{
    reply_at(body)?;
    let way = way_at(body)?;
    check_by(alloc, way, body)
}

/// A job of these parts, or the first field that does not let it be run.
fn job_with(
    task: Task,
    image: Text,
    input: Text,
    answer: Text,
    check: OwnCheck,
    limits: Limits,
) -> Result<Job, JobFault>
    ensures { result ≡ job_with answer image input limits task (own_checking check) }
{
    if let Some(fault) = fault_of(&check, image.as_slice(), answer.as_slice()) {
        return Err(fault);
    }
    Ok(Job::new(task, image, input, answer, check, limits))
}

/// The image of the submission: the one that the reader has, or else the field says it.
fn image_in(alloc: Global, has: Option<Text>, body: &Value) -> Result<Text, JobFault>
    ensures { IsReading (image_in has (view body.now)) result }
{
    match has {
        None => bytes_at(alloc, body, JobField::Image),
        Some(image) => Ok(image),
    }
}

/// The job that the fields say to a reader that has this image or none.
fn job_in(alloc: Global, has: Option<Text>, body: &Value) -> Result<Job, JobFault>
    ensures { IsReading (job_in has (view body.now)) result }
{
    let answer = bytes_at(alloc, body, JobField::Answer)?;
    let image = image_in(alloc, has, body)?;
    let input = bytes_at(alloc, body, JobField::Input)?;
    let limits = limits_in(body)?;
    let task = task_in(body)?;
    let check = check_in(alloc, body)?;
    job_with(task, image, input, answer, check, limits)
}

/// The job that a body is, or its first fault. The fields are looked at in the order of [`JobField`]'s list, and then
/// whether the validator is a raw image, the image is one that can be run, and the answer can be compared. Other fields
/// are ignored, and of a field that stands more than once the last value counts. For a reader that has the image of the
/// submission, the field of that is one of the others.
pub fn read_job(alloc: Global, has: Option<Text>, bytes: &[u8]) -> Result<Job, JobFault>
    ensures { IsReading (job_of has bytes.now) result }
{
    match object_of(alloc, bytes) {
        Ok(body) => job_in(alloc, has, &body),
        Err(BodyFault::NotJson) => Err(JobFault::NotJson),
        // No other fault is one of an object as a whole.
        Err(_) => Err(JobFault::NoMemory),
    }
}
