ghost use Rattle.std.specs.Prelude.{◌≡◌, ◌≤◌, ◌+◌};
ghost use Rattle.http_door.specs.Responses.{Writes, HasCauseWritten};
ghost use Rattle.farm_api.specs.Conversation.{page_response, contest_response};
ghost use Rattle.farm_api.specs.Serving.{PutsAnswer};

use crate::asking::Asked;
use crate::replier::Replier;
use contest_page::{ContestView, write_page};
use farm_io::Sink;
use farm_kinds::{Answers, Reply};
use http::StatusCode;
use http_door::{Content, ResponseFault, write_content, write_response};
use std::alloc::Global;

/// Puts the response that gives the page with the rows of a look.
fn put_page<K: Sink>(
    alloc: Global,
    sink: &mut K,
    closing: bool,
    contest: &ContestView,
    rows: &Answers,
) -> Result<(), ResponseFault>
    ensures writes { Writes (K.held sink.old) (K.held sink.new) (page_response closing contest.now (Reply.Board rows.now)) result }
    ensures cause { HasCauseWritten (K.faults sink.old) (K.faults sink.new) result }
    ensures beside { K.beside sink.new ≡ K.beside sink.old }
{
    match write_page(alloc, contest, rows.as_slice()) {
        Ok(page) => write_content(
            alloc,
            sink,
            Content::Page,
            closing,
            StatusCode::OK,
            page.as_slice(),
        ),
        Err(_) => Err(ResponseFault::NoMemory),
    }
}

/// Looks at what the public sees, and puts the response that gives the page with it.
pub(crate) fn answer_page<A: Replier, K: Sink>(
    alloc: Global,
    replier: &A,
    state: &mut A::State,
    moment: u64,
    closing: bool,
    sink: &mut K,
) -> Result<(), ResponseFault>
    requires suits { A.suits replier.now state.old }
    requires calls { 3 ≤ A.left state.old }
    ensures puts { PutsAnswer A.steps (A.gives replier.now) closing moment Asked.Page state.old state.new (K.held sink.old) (K.held sink.new) result }
    ensures cause { HasCauseWritten (K.faults sink.old) (K.faults sink.new) result }
    ensures beside { K.beside sink.new ≡ K.beside sink.old }
    ensures left { A.left state.old ≤ A.left state.new + 3 }
    ensures suits { A.suits replier.now state.new }
{
    match replier.look(alloc, state) {
        Reply::Board { rows } => put_page(alloc, sink, closing, replier.contest(), &rows),
        _ => Err(ResponseFault::NoMemory),
    }
}

/// Puts the response that gives the names of the contest.
pub(crate) fn answer_contest<A: Replier, K: Sink>(
    alloc: Global,
    replier: &A,
    closing: bool,
    sink: &mut K,
) -> Result<(), ResponseFault>
    ensures writes { Writes (K.held sink.old) (K.held sink.new) (contest_response closing (A.gives replier.now).contest) result }
    ensures cause { HasCauseWritten (K.faults sink.old) (K.faults sink.new) result }
    ensures beside { K.beside sink.new ≡ K.beside sink.old }
{
    write_response(
        alloc,
        sink,
        closing,
        StatusCode::OK,
        replier.contest().json(),
    )
}
