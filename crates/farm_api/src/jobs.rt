ghost use Rattle.std.specs.Prelude.{◌≡◌, ◌≢◌, ◌≤◌, ◌+◌, IfOk};
ghost use Rattle.http_door.specs.Responses.{HasCauseWritten};
ghost use Rattle.farm_api.specs.Jobs.{owner_in, IsCaseBy, IsJobText};
ghost use Rattle.farm_api.specs.Serving.{PutsJob, PutsAnswer};

use crate::answering::answer_reply;
use crate::asking::Asked;
use crate::replier::{Replier, enter};
use case_run::Cases;
use farm_io::Sink;
use farm_kinds::{Event, NoMemory, Reply, Task, Text};
use http::StatusCode;
use http_door::{ResponseFault, write_response};
use std::alloc::Global;
use wire_job::{JobPart, write_job};

/// The text of so much of the job of a test of a judging of this submission, whose cases are those of its first judging. None where
/// there is no case of it.
pub(crate) fn write_case<Q: Cases>(
    alloc: Global,
    part: JobPart,
    cases: &Q,
    submission: u32,
    judging: u32,
    test: u32,
) -> Result<Option<Text>, NoMemory>
    ensures { IfOk result (λ text. IsJobText (IsCaseBy (Q.case_at cases.now) submission test) part judging test text) }
{
    if test > 65_535 {
        return Ok(None);
    }
    let test = test as u16;
    let first = Task {
        judging: submission,
        test,
    };
    match cases.case_of(first) {
        None => Ok(None),
        Some(case) => {
            let text = write_job(alloc, part, Task { judging, test }, &case)?;
            Ok(Some(text))
        }
    }
}

/// The submission that a reply names as that of a judging.
fn owner_in(reply: &Reply) -> Option<u32>
    ensures { result ≡ owner_in reply.now }
{
    match reply {
        Reply::Owned { submission } => Some(*submission),
        _ => None,
    }
}

/// Puts the response that gives so much of the job of a test of a judging, where the reply names the judging's submission,
/// and else the response to the reply.
fn put_job<A: Replier, K: Sink>(
    alloc: Global,
    replier: &A,
    sink: &mut K,
    closing: bool,
    part: JobPart,
    judging: u32,
    test: u32,
    reply: &Reply,
) -> Result<(), ResponseFault>
    requires { reply.now ≢ Reply.NoMemory }
    ensures puts { PutsJob (A.gives replier.now) closing part judging test reply.now (K.held sink.old) (K.held sink.new) result }
    ensures cause { HasCauseWritten (K.faults sink.old) (K.faults sink.new) result }
    ensures beside { K.beside sink.new ≡ K.beside sink.old }
{
    match owner_in(reply) {
        None => answer_reply(alloc, sink, closing, reply),
        Some(submission) => match replier.job(alloc, part, submission, judging, test) {
            Err(_) => Err(ResponseFault::NoMemory),
            Ok(None) => {
                let body = b"{\"reply\":\"no-job\"}";
                write_response(alloc, sink, closing, StatusCode::NOT_FOUND, body)
            }
            Ok(Some(text)) => {
                write_response(alloc, sink, closing, StatusCode::OK, text.as_slice())
            }
        },
    }
}

/// Asks whose submission a judging is, and puts the response that gives so much of the job of a test of it.
pub(crate) fn answer_job<A: Replier, K: Sink>(
    alloc: Global,
    replier: &A,
    state: &mut A::State,
    moment: u64,
    part: JobPart,
    judging: u32,
    test: u32,
    closing: bool,
    sink: &mut K,
) -> Result<(), ResponseFault>
    requires suits { A.suits replier.now state.old }
    requires calls { 3 ≤ A.left state.old }
    ensures puts { PutsAnswer A.steps (A.gives replier.now) closing moment (Asked.Job part judging test) state.old state.new (K.held sink.old) (K.held sink.new) result }
    ensures cause { HasCauseWritten (K.faults sink.old) (K.faults sink.new) result }
    ensures beside { K.beside sink.new ≡ K.beside sink.old }
    ensures left { A.left state.old ≤ A.left state.new + 3 }
    ensures suits { A.suits replier.now state.new }
{
    let event = Event::Owner { judging };
    match enter(replier, state, false, moment, &event) {
        Err(_) => Err(ResponseFault::NoMemory),
        Ok(reply) => put_job(alloc, replier, sink, closing, part, judging, test, &reply),
    }
}
