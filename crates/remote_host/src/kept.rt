ghost use Rattle.std.specs.Prelude.{◌≡◌};
ghost use Rattle.remote_host.specs.Benches.{kept_behind};
ghost use Rattle.remote_host.specs.Talk.{image_for, case_ask};

use crate::asks::{Ask, Kept};
use farm_kinds::{Task, Text};
use wire_job::Job;

/// What is kept of the job that was run: its image is taken out of it.
pub fn keep(job: Option<Job>) -> Option<Kept>
    ensures { result ≡ kept_behind job }
{
    match job {
        None => None,
        Some(job) => {
            let judging = job.task().judging;
            Some(Kept {
                judging,
                image: job.into_image(),
            })
        }
    }
}

/// The image that was kept, where it is of the task's judging.
pub fn image_for(kept: Option<Kept>, task: Task) -> Option<Text>
    ensures { result ≡ image_for kept task }
{
    match kept {
        None => None,
        Some(kept) => {
            if kept.judging == task.judging {
                return Some(kept.image);
            }
            None
        }
    }
}

/// What asks for the case of a task, by whether its image is there.
pub fn case_ask(has: &Option<Text>, task: Task) -> Ask
    ensures { result ≡ case_ask has.now task }
{
    match has {
        None => Ask::Job(task),
        Some(_) => Ask::JobRest(task),
    }
}
