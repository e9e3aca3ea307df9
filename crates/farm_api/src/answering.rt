ghost use Rattle.std.specs.Prelude.{◌≡◌, ◌≢◌, IfOk};
ghost use Rattle.http_door.specs.Responses.{Writes, HasCauseWritten};
ghost use Rattle.farm_api.specs.Conversation.{status_of, reply_response, fault_status, fault_body, fault_response};

use crate::asking::RequestFault;
use farm_io::Sink;
use farm_kinds::{NoMemory, Reply, Text};
use http::StatusCode;
use http_door::{ResponseFault, write_response};
use std::alloc::Global;
use wire_json::{BodyFault, fault_json, write_json};

/// The status of the response to a reply: 404 for what is not there, 409 for the other refusals, 200 for all else
/// (RFC 9110, section 15).
pub fn status_of(reply: &Reply) -> StatusCode
    ensures { result ≡ status_of reply.now }
{
    match reply {
        Reply::NoProblem { .. } | Reply::NoHost { .. } | Reply::NoJudging { .. } =>
            StatusCode::NOT_FOUND,
        Reply::NoTest { .. } | Reply::NoSubmission { .. } => StatusCode::NOT_FOUND,
        Reply::NoRejudging { .. } => StatusCode::NOT_FOUND,
        Reply::Differs { .. } | Reply::Dropped | Reply::BadTests { .. } => StatusCode::CONFLICT,
        Reply::Known { .. } | Reply::Full { .. } | Reply::Holding { .. } => StatusCode::CONFLICT,
        Reply::NotHanded | Reply::NoLease | Reply::EmptySet => StatusCode::CONFLICT,
        Reply::Twice { .. } | Reply::NotFinal { .. } | Reply::Busy { .. } => StatusCode::CONFLICT,
        Reply::Closed { .. } | Reply::Unfinished { .. } => StatusCode::CONFLICT,
        Reply::Already { .. } => StatusCode::CONFLICT,
        _ => StatusCode::OK,
    }
}

/// Puts the response to a reply, behind which the server ends the connection where it is `closing`.
pub fn answer_reply<K: Sink>(
    alloc: Global,
    sink: &mut K,
    closing: bool,
    reply: &Reply,
) -> Result<(), ResponseFault>
    requires { reply.now ≢ Reply.NoMemory }
    ensures writes { Writes (K.held sink.old) (K.held sink.new) (reply_response closing reply.now) result }
    ensures cause { HasCauseWritten (K.faults sink.old) (K.faults sink.new) result }
    ensures beside { K.beside sink.new ≡ K.beside sink.old }
{
    match write_json(alloc, reply) {
        Ok(body) => write_response(alloc, sink, closing, status_of(reply), body.as_slice()),
        Err(_) => Err(ResponseFault::NoMemory),
    }
}

/// The status of the response to a request without an event: 404, 405 or 400 (RFC 9110, section 15.5).
fn fault_status(fault: &RequestFault) -> StatusCode
    ensures { result ≡ fault_status fault.now }
{
    match fault {
        RequestFault::NoRoute => StatusCode::NOT_FOUND,
        RequestFault::NoMethod => StatusCode::METHOD_NOT_ALLOWED,
        RequestFault::BadBody(_) => StatusCode::BAD_REQUEST,
    }
}

/// A text in memory of its own.
fn text(alloc: Global, bytes: &[u8]) -> Result<Text, NoMemory>
    ensures { IfOk result (λ text. text ≡ bytes.now) }
{
    Ok(Text::from_vec(Vec::from_slice(alloc, bytes)?))
}

/// The body of the response to a request without an event.
fn fault_body(alloc: Global, fault: &RequestFault) -> Result<Text, NoMemory>
    requires { fault.now ≢ RequestFault.BadBody BodyFault.NoMemory }
    ensures { IfOk result (λ text. text ≡ fault_body fault.now) }
{
    match fault {
        RequestFault::NoRoute => text(alloc, b"{\"reply\":\"no-route\"}"),
        RequestFault::NoMethod => text(alloc, b"{\"reply\":\"no-method\"}"),
        RequestFault::BadBody(fault) => fault_json(alloc, fault),
    }
}

/// Puts the response to a request without an event, behind which the server ends the connection where it is `closing`.
pub fn answer_fault<K: Sink>(
    alloc: Global,
    sink: &mut K,
    closing: bool,
    fault: &RequestFault,
) -> Result<(), ResponseFault>
    requires { fault.now ≢ RequestFault.BadBody BodyFault.NoMemory }
    ensures writes { Writes (K.held sink.old) (K.held sink.new) (fault_response closing fault.now) result }
    ensures cause { HasCauseWritten (K.faults sink.old) (K.faults sink.new) result }
    ensures beside { K.beside sink.new ≡ K.beside sink.old }
{
    match fault_body(alloc, fault) {
        Ok(body) => write_response(alloc, sink, closing, fault_status(fault), body.as_slice()),
        Err(_) => Err(ResponseFault::NoMemory),
    }
}
