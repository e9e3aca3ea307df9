ghost use Rattle.std.specs.Prelude.{◌≡◌, ◌≢◌, ℕ, List, IfOk, IfErr, Some, Ok, Err, true, false, codes, option_map, option_and_then, is_some};
ghost use Rattle.serde_json.specs.View.{view};
ghost use Rattle.serde_json.specs.Find.{get};
ghost use Rattle.farm_kinds.specs.declared.events.Reply.TheVariants as replies;
ghost use Rattle.wire_json.specs.Bodies.{object_of};
ghost use Rattle.wire_json.specs.Fields.{whole_in};
ghost use Rattle.remote_host.specs.declared.asks.Wrong.{Wrong as WrongValue};
ghost use Rattle.remote_host.specs.Bodies.{word_of, number_at, kind_at, is_entered, entered_in, enters, task_at, fetched_by, fetched_in, fetch_said, same_task, job_said, refused_by, posted_by, posted_in, post_said};
ghost use Rattle.remote_host.specs.declared.asks.Wrong.TheVariants as wrongs;

use crate::asks::{Fetched, Wrong};
use farm_kinds::{Kind, NoMemory, Reply, Task, Text};
use serde_json::Value;
use std::alloc::Global;
use wire_job::{Job, JobFault, read_job};
use wire_json::{BodyFault, kind_in, number_in, object_of, whole_in};

/// The object that a body is. None where it is none.
fn fields_of(alloc: Global, body: &[u8]) -> Result<Option<Value>, NoMemory>
    ensures { IfOk result (λ fields. option_map view fields ≡ object_of body.now) }
{
    match object_of(alloc, body) {
        Ok(fields) => Ok(Some(fields)),
        Err(BodyFault::NotJson) => Ok(None),
        // No other fault is one of an object as a whole.
        Err(_) => Err(NoMemory),
    }
}

/// The word that the field `reply` says.
fn word_of(fields: &Value) -> Option<&str>
    ensures { option_map (λ word. word.now) result ≡ word_of (view fields.now) }
{
    let value = fields.get("reply")?;
    value.as_str()
}

/// The number in this field.
fn number_at(fields: &Value, key: &str) -> Option<u32>
    ensures { result ≡ number_at key.now (view fields.now) }
{
    let value = fields.get(key)?;
    number_in(value)
}

/// The kind in this field.
fn kind_at(fields: &Value, key: &str) -> Option<Kind>
    ensures { result ≡ kind_at key.now (view fields.now) }
{
    let value = fields.get(key)?;
    kind_in(value)
}

/// Whether the word says that a name is entered.
fn is_entered(word: &str) -> bool
    ensures { result ≡ is_entered word.now }
{
    word == "host" || word == "known"
}

/// That a name is entered.
fn entered_in(fields: &Value) -> Option<()>
    ensures { result ≡ entered_in (view fields.now) }
{
    let word = word_of(fields)?;
    if is_entered(word) {
        return Some(());
    }
    None
}

/// Whether the response says that a name is entered. None where it is a wrong answer.
#[tactic(auto, unfolding(crate::specs::Bodies::enters))]
pub fn read_entered(alloc: Global, body: &[u8]) -> Result<Option<()>, NoMemory>
    ensures { IfOk result (λ said. said ≡ enters body.now) }
{
    match fields_of(alloc, body)? {
        None => Ok(None),
        Some(fields) => Ok(entered_in(&fields)),
    }
}

/// The rank of a test, from 1 to 65,535.
fn rank_at(fields: &Value) -> Option<u16>
    ensures { result ≡ option_and_then (λ value. whole_in 1 65535 value) (get (codes "test") (view fields.now)) }
{
    let value = fields.get("test")?;
    let rank = whole_in(value, 1, 65_535)?;
    Some(rank as u16)
}

/// The task that the fields say.
fn task_at(fields: &Value) -> Option<Task>
    ensures { result ≡ task_at (view fields.now) }
{
    let judging = number_at(fields, "judging")?;
    let test = rank_at(fields)?;
    Some(Task { judging, test })
}

/// What is answered to the request for a task, by its word.
fn fetched_by(word: &str, fields: &Value) -> Option<Fetched>
    ensures { result ≡ fetched_by word.now (view fields.now) }
{
    if word == "task" {
        return match task_at(fields) {
            None => None,
            Some(task) => Some(Fetched::Task(task)),
        };
    }
    if word == "nothing" {
        return Some(Fetched::Nothing);
    }
    if word == "no-host" {
        return Some(Fetched::NoHost);
    }
    if word == "holding" {
        return Some(Fetched::Holding);
    }
    None
}

/// What is answered to the request for a task.
fn fetched_in(fields: &Value) -> Option<Fetched>
    ensures { result ≡ fetched_in (view fields.now) }
{
    let word = word_of(fields)?;
    fetched_by(word, fields)
}

/// What the response to the request for a task says. None where it is a wrong answer.
#[tactic(auto, unfolding(crate::specs::Bodies::fetch_said))]
pub fn read_fetched(alloc: Global, body: &[u8]) -> Result<Option<Fetched>, NoMemory>
    ensures { IfOk result (λ said. said ≡ fetch_said body.now) }
{
    match fields_of(alloc, body)? {
        None => Ok(None),
        Some(fields) => Ok(fetched_in(&fields)),
    }
}

/// The reply by which a result is refused, and not because the cell holds a kind. None in it where the host is not up.
fn refused_by(word: &str, fields: &Value) -> Option<Option<Reply>>
    ensures said { result ≡ refused_by word.now (view fields.now) }
    ensures no_host { (name : List ℕ) → result ≢ Some (Some (replies.NoHost name)) }
    ensures no_memory { result ≢ Some (Some replies.NoMemory) }
{
    if word == "dropped" {
        return Some(Some(Reply::Dropped));
    }
    if word == "not-handed" {
        return Some(Some(Reply::NotHanded));
    }
    if word == "no-judging" {
        let judging = number_at(fields, "judging")?;
        return Some(Some(Reply::NoJudging { judging }));
    }
    if word == "no-test" {
        let test = number_at(fields, "test")?;
        return Some(Some(Reply::NoTest { test }));
    }
    if word == "no-host" {
        return Some(None);
    }
    None
}

/// The reply to a result, by its word. None in it where the host is not up.
fn posted_by(word: &str, fields: &Value) -> Option<Option<Reply>>
    ensures said { result ≡ posted_by word.now (view fields.now) }
    ensures no_host { (name : List ℕ) → result ≢ Some (Some (replies.NoHost name)) }
    ensures no_memory { result ≢ Some (Some replies.NoMemory) }
{
    if word == "counted" {
        return Some(Some(Reply::Counted));
    }
    if word == "repeat" {
        let kept = kind_at(fields, "kept")?;
        return Some(Some(Reply::Repeat { kept }));
    }
    if word == "differs" {
        let kept = kind_at(fields, "kept")?;
        let given = kind_at(fields, "given")?;
        return Some(Some(Reply::Differs { kept, given }));
    }
    refused_by(word, fields)
}

/// The reply to a result. None in it where the host is not up.
fn posted_in(fields: &Value) -> Option<Option<Reply>>
    ensures said { result ≡ posted_in (view fields.now) }
    ensures no_host { (name : List ℕ) → result ≢ Some (Some (replies.NoHost name)) }
    ensures no_memory { result ≢ Some (Some replies.NoMemory) }
{
    let word = word_of(fields)?;
    posted_by(word, fields)
}

/// What the response to a result says: the reply, or None where the host is not up. None where it is a wrong answer.
#[tactic(auto, unfolding(crate::specs::Bodies::post_said))]
pub fn read_posted(alloc: Global, body: &[u8]) -> Result<Option<Option<Reply>>, NoMemory>
    ensures said { IfOk result (λ said. said ≡ post_said body.now) }
    ensures no_host { (name : List ℕ) → result ≢ Ok (Some (Some (replies.NoHost name))) }
    ensures no_memory { result ≢ Ok (Some (Some replies.NoMemory)) }
{
    match fields_of(alloc, body)? {
        None => Ok(None),
        Some(fields) => Ok(posted_in(&fields)),
    }
}

/// Why a body gives no job of a task.
#[derive(Clone, Copy, Debug, PartialEq, Eq)]
pub enum NoJob {
    /// It is a wrong answer.
    Wrong(Wrong),
    /// No memory was left.
    NoMemory,
}

/// Whether the two are one task.
fn same_task(task: Task, other: Task) -> bool
    ensures same { result ≡ same_task task other }
    ensures one { result ≡ true → task ≡ other }
{
    task.judging == other.judging && task.test == other.test
}

/// The job that a body is to a host that has this image or none, where it is one of this task.
#[tactic(auto, unfolding(crate::specs::Bodies::job_said))]
pub fn read_job_of(alloc: Global, has: Option<Text>, task: Task, body: &[u8]) -> Result<Job, NoJob>
    ensures ok { IfOk result (λ job. (job_said has task body.now ≡ Ok job.case) × (job.task ≡ task)) }
    ensures wrong { (w : WrongValue) → result ≡ Err (NoJob.Wrong w) → job_said has task body.now ≡ Err w }
{
    match read_job(alloc, has, body) {
        Ok(job) => of_task(task, job),
        Err(JobFault::NoMemory) => Err(NoJob::NoMemory),
        Err(JobFault::NotJson | JobFault::MissingField { .. } | JobFault::BadField { .. }) => {
            Err(NoJob::Wrong(Wrong::BadBody))
        }
    }
}

/// The job, where it is one of this task.
fn of_task(task: Task, job: Job) -> Result<Job, NoJob>
    ensures ok { IfOk result (λ same. (same ≡ job) × (job.task ≡ task) × (same_task job.task task ≡ true)) }
    ensures err { IfErr result (λ fault. (fault ≡ NoJob.Wrong (wrongs.OtherTask job.task)) × (same_task job.task task ≡ false)) }
{
    let other = job.task();
    if same_task(other, task) {
        return Ok(job);
    }
    Err(NoJob::Wrong(Wrong::OtherTask { task: other }))
}
