ghost use Rattle.std.specs.Prelude.{◌≡◌, ◌≢◌, ◌∷◌, [], codes, Some, IfOk};
ghost use Rattle.serde_json.specs.Data.{string, object, put, no_members};
ghost use Rattle.serde_json.specs.Read.{read};
ghost use Rattle.serde_json.specs.View.{view};
ghost use Rattle.serde_json.specs.Written.{compact_text};
ghost use Rattle.farm_kinds.specs.declared.events.Reply.TheVariants as reply;
ghost use Rattle.wire_json.specs.Objects.{object_with, whole, reply_field};
ghost use Rattle.wire_json.specs.Replies.{json_of, shown_json};

use crate::answers::{how_text, name_text, verdict_text};
use crate::rows::{board_rows, matrix_rows, rank_values};
use farm_kinds::{Answer, Answers, Kind, MatrixRows, Name, NoMemory, Reply, Task, Text};
use serde_json::{Value, json};
use std::alloc::{AllocError, Global};

/// A reply that is its word alone.
fn word_value(alloc: Global, word: &str) -> Result<Value, AllocError>
    ensures { IfOk result (λ v. view v ≡ object_with (reply_field word.now ∷ [])) }
{
    json!(in alloc; {"reply": word})
}

/// A reply of its word and one number.
fn number_value(alloc: Global, word: &str, key: &str, number: u64) -> Result<Value, AllocError>
    ensures { IfOk result (λ v. view v ≡ object (put key.now (whole number) (put (codes "reply") (string word.now) no_members))) }
{
    json!(in alloc; {"reply": word, key: number})
}

/// A reply of its word and one text.
fn text_value(alloc: Global, word: &str, key: &str, text: &str) -> Result<Value, AllocError>
    ensures { IfOk result (λ v. view v ≡ object (put key.now (string text.now) (put (codes "reply") (string word.now) no_members))) }
{
    json!(in alloc; {"reply": word, key: text})
}

/// A problem's name and version.
fn problem_value(alloc: Global, name: &Name, version: u32) -> Result<Value, AllocError>
    ensures { IfOk result (λ v. view v ≡ json_of (reply.Problem name.now version)) }
{
    let name = name_text(name);
    json!(in alloc; {"name": name, "reply": "problem", "version": version})
}

/// A submission's number and its judging's.
fn submitted_value(alloc: Global, submission: u32, judging: u32) -> Result<Value, AllocError>
    ensures { IfOk result (λ v. view v ≡ json_of (reply.Submitted submission judging)) }
{
    json!(in alloc; {"judging": judging, "reply": "submission", "submission": submission})
}

/// A task that was handed out, and until when.
fn handed_value(alloc: Global, task: Task, until: u64) -> Result<Value, AllocError>
    ensures { IfOk result (λ v. view v ≡ json_of (reply.Handed task until)) }
{
    let judging = task.judging;
    let test = task.test;
    json!(in alloc; {"judging": judging, "reply": "task", "test": test, "until": until})
}

/// Tests of a judging that were handed out, and until when.
fn batch_value(alloc: Global, judging: u32, tests: &[u16], until: u64) -> Result<Value, AllocError>
    ensures { IfOk result (λ v. view v ≡ json_of (reply.Batch judging tests.now until)) }
{
    let tests = rank_values(alloc, tests)?;
    json!(in alloc; {"judging": judging, "reply": "batch", "tests": tests, "until": until})
}

/// The kind that a cell holds, and another one that was given.
fn differs_value(alloc: Global, kept: Kind, given: Kind) -> Result<Value, AllocError>
    ensures { IfOk result (λ v. view v ≡ json_of (reply.Differs kept given)) }
{
    let given = given.name();
    let kept = kept.name();
    json!(in alloc; {"given": given, "kept": kept, "reply": "differs"})
}

/// What is reported of a judging.
fn shown_value(alloc: Global, answer: Answer) -> Result<Value, AllocError>
    ensures { IfOk result (λ v. view v ≡ shown_json answer) }
{
    match answer {
        Answer::Final(verdict) => text_value(alloc, "final", "verdict", verdict_text(verdict)),
        Answer::Pending => word_value(alloc, "pending"),
    }
}

/// What the public sees of each submission.
fn board_value(alloc: Global, answers: &Answers) -> Result<Value, AllocError>
    ensures { IfOk result (λ v. view v ≡ json_of (reply.Board answers.now)) }
{
    let rows = board_rows(alloc, answers.as_slice())?;
    json!(in alloc; {"reply": "board", "rows": rows})
}

/// The numbers of a rejudging and of its first and last judgings.
fn rejudging_value(alloc: Global, number: u32, first: u32, last: u32) -> Result<Value, AllocError>
    ensures { IfOk result (λ v. view v ≡ json_of (reply.Rejudging number first last)) }
{
    json!(in alloc; {"first": first, "last": last, "number": number, "reply": "rejudging"})
}

/// How often an old answer became a new one in a rejudging of `members` members.
fn matrix_value(alloc: Global, matrix: &MatrixRows, members: u32) -> Result<Value, AllocError>
    ensures { IfOk result (λ v. view v ≡ json_of (reply.Matrix matrix.now members)) }
{
    let rows = matrix_rows(alloc, matrix.as_slice())?;
    json!(in alloc; {"members": members, "reply": "matrix", "rows": rows})
}

/// How many entries the audit log has, and its last digest.
fn audit_value(alloc: Global, count: u32, head: &[u8; 32]) -> Result<Value, AllocError>
    ensures { IfOk result (λ v. view v ≡ json_of (reply.Audit count head.now)) }
{
    let head = hex::encode(alloc, head)?;
    json!(in alloc; {"count": count, "head": head, "reply": "audit"})
}

/// A submission, and the rejudging that it is in.
fn busy_value(alloc: Global, submission: u32, rejudging: u32) -> Result<Value, AllocError>
    ensures { IfOk result (λ v. view v ≡ json_of (reply.Busy submission rejudging)) }
{
    json!(in alloc; {"rejudging": rejudging, "reply": "busy", "submission": submission})
}

/// A reply as a JSON value: a row for each reply.
fn reply_value(alloc: Global, reply: &Reply) -> Result<Value, AllocError>
    requires { reply.now ≢ Reply.NoMemory }
    ensures { IfOk result (λ v. view v ≡ json_of reply.now) }
{
    match reply {
        Reply::Problem { name, version } => problem_value(alloc, name, *version),
        Reply::Host { name } => text_value(alloc, "host", "host", name_text(name)),
        Reply::Submitted {
            submission,
            judging,
        } => submitted_value(alloc, *submission, *judging),
        Reply::Handed { task, until } => handed_value(alloc, *task, *until),
        Reply::Batch {
            judging,
            tests,
            until,
        } => batch_value(alloc, *judging, tests.as_slice(), *until),
        Reply::Nothing => word_value(alloc, "nothing"),
        Reply::Counted => word_value(alloc, "counted"),
        Reply::Repeat { kept } => text_value(alloc, "repeat", "kept", kept.name()),
        Reply::Differs { kept, given } => differs_value(alloc, *kept, *given),
        Reply::Dropped => word_value(alloc, "dropped"),
        Reply::Until { until } => number_value(alloc, "until", "until", *until),
        Reply::Ended { count } => number_value(alloc, "ended", "count", u64::from(*count)),
        Reply::Shown(answer) => shown_value(alloc, *answer),
        Reply::Owned { submission } => {
            number_value(alloc, "owner", "submission", u64::from(*submission))
        }
        Reply::Board { rows } => board_value(alloc, rows),
        Reply::Rejudging {
            number,
            first,
            last,
        } => rejudging_value(alloc, *number, *first, *last),
        Reply::Matrix { rows, members } => matrix_value(alloc, rows, *members),
        Reply::Applied { members } => {
            number_value(alloc, "applied", "members", u64::from(*members))
        }
        Reply::Cancelled { members } => {
            number_value(alloc, "cancelled", "members", u64::from(*members))
        }
        Reply::Verified { judging } => {
            number_value(alloc, "verified", "judging", u64::from(*judging))
        }
        Reply::Audit { count, head } => audit_value(alloc, *count, head),
        Reply::BadTests { tests } => {
            number_value(alloc, "bad-tests", "tests", u64::from(*tests))
        }
        Reply::Known { name } => text_value(alloc, "known", "name", name_text(name)),
        Reply::NoProblem { name } => text_value(alloc, "no-problem", "name", name_text(name)),
        Reply::NoHost { name } => text_value(alloc, "no-host", "name", name_text(name)),
        Reply::Full { limit } => number_value(alloc, "full", "limit", u64::from(*limit)),
        Reply::Holding { limit } => number_value(alloc, "holding", "limit", u64::from(*limit)),
        Reply::NoJudging { judging } => {
            number_value(alloc, "no-judging", "judging", u64::from(*judging))
        }
        Reply::NoTest { test } => number_value(alloc, "no-test", "test", u64::from(*test)),
        Reply::NotHanded => word_value(alloc, "not-handed"),
        Reply::NoLease => word_value(alloc, "no-lease"),
        Reply::EmptySet => word_value(alloc, "empty-set"),
        Reply::NoSubmission { submission } => {
            number_value(alloc, "no-submission", "submission", u64::from(*submission))
        }
        Reply::Twice { submission } => {
            number_value(alloc, "twice", "submission", u64::from(*submission))
        }
        Reply::NotFinal { number } => {
            number_value(alloc, "not-final", "number", u64::from(*number))
        }
        Reply::Busy {
            submission,
            rejudging,
        } => busy_value(alloc, *submission, *rejudging),
        Reply::NoRejudging { rejudging } => {
            number_value(alloc, "no-rejudging", "rejudging", u64::from(*rejudging))
        }
        Reply::Closed { how } => text_value(alloc, "closed", "how", how_text(*how)),
        Reply::Unfinished { judging } => {
            number_value(alloc, "unfinished", "judging", u64::from(*judging))
        }
        Reply::Already { judging } => {
            number_value(alloc, "already", "judging", u64::from(*judging))
        }
        Reply::NoMemory => unreachable!(),
    }
}

/// The body of a response with this reply: compact JSON, its keys in the order of their bytes.
#[tactic(auto, using(crate::proofs::Plain::reply_is_whole, crate::proofs::Plain::reply_is_shallow))]
pub fn write_json(alloc: Global, reply: &Reply) -> Result<Text, NoMemory>
    requires { reply.now ≢ Reply.NoMemory }
    ensures text { IfOk result (λ text. text ≡ compact_text (json_of reply.now)) }
    ensures reads_back { IfOk result (λ text. read text ≡ Some (json_of reply.now)) }
{
    let value = reply_value(alloc, reply)?;
    Ok(Text::from_vec(value.to_vec(alloc)?))
}
