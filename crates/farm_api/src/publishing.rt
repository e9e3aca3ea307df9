ghost use Rattle.std.specs.Prelude.{◌≡◌, IfOk, false};
ghost use Rattle.http_door.specs.Responses.{Writes, HasCauseWritten};
ghost use Rattle.farm_api.specs.Conversation.{rows_response};
ghost use Rattle.farm_api.specs.Putting.{PutsRows};

use crate::rows_text::rows_json;
use farm_io::Sink;
use farm_kinds::{Answer, NoMemory, Reply};
use http::StatusCode;
use http_door::{Content, ResponseFault, response_bytes, write_response};
use std::alloc::Global;

/// The response that gives these rows, behind which the connection goes on.
pub(crate) fn rows_response(alloc: Global, rows: &[Answer]) -> Result<Vec<u8>, NoMemory>
    ensures { IfOk result (λ response. response.items ≡ rows_response false (Reply.Board rows.now)) }
{
    let body = rows_json(alloc, rows)?;
    let response = response_bytes(alloc, Content::Json, false, StatusCode::OK, body.as_slice())?;
    Ok(response)
}

/// Puts the response that gives these rows.
pub(crate) fn put_rows<K: Sink>(
    alloc: Global,
    sink: &mut K,
    closing: bool,
    rows: &[Answer],
) -> Result<(), ResponseFault>
    ensures writes { Writes (K.held sink.old) (K.held sink.new) (rows_response closing (Reply.Board rows.now)) result }
    ensures cause { HasCauseWritten (K.faults sink.old) (K.faults sink.new) result }
    ensures beside { K.beside sink.new ≡ K.beside sink.old }
{
    match rows_json(alloc, rows) {
        Ok(body) => write_response(alloc, sink, closing, StatusCode::OK, body.as_slice()),
        Err(_) => Err(ResponseFault::NoMemory),
    }
}

/// Puts the response that gives the rows of a look. `NoMemory` where it gave none, too.
#[tactic(auto, using(crate::proofs::OneAnswer::rows_put))]
pub fn put_look<K: Sink>(
    alloc: Global,
    sink: &mut K,
    closing: bool,
    look: &Reply,
) -> Result<(), ResponseFault>
    ensures puts { PutsRows closing look.now (K.held sink.old) (K.held sink.new) result }
    ensures cause { HasCauseWritten (K.faults sink.old) (K.faults sink.new) result }
    ensures beside { K.beside sink.new ≡ K.beside sink.old }
{
    match look {
        Reply::Board { rows } => put_rows(alloc, sink, closing, rows.as_slice()),
        _ => Err(ResponseFault::NoMemory),
    }
}
