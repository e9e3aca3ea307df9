ghost use Rattle.std.specs.Prelude.{◌≡◌, ◌≢◌, ◌+◌, ◌*◌, ◌<◌, ◌≤◌, ◌^◌, true, Bool, IsNone, None, Some, IsUtf8};
ghost use Rattle.farm_io.specs.Streams.{Rose};
ghost use Rattle.farm_io.specs.Beside.{side};
ghost use Rattle.http_door.specs.Refusals.{refusal_response};
ghost use Rattle.http_door.specs.Responses.{HasCauseWritten};
ghost use Rattle.http_door.specs.Reading.{request_with};
ghost use Rattle.http_door.specs.ReaderValue.{budget};
ghost use Rattle.farm_api.specs.Entering.{AreEntered};
ghost use Rattle.farm_api.specs.Exchanges.{around_of, giving};
ghost use Rattle.farm_api.specs.Serving.{PutsAnswer, close_or, how_after, OneAnswered, Refuses, PutsEnd, untaken, Turned, IsServed, answered_count, HasCauseServed};

use crate::answering::{answer_fault, answer_reply};
use crate::asking::{Asked, RequestFault, read_request};
use crate::ends::{ConnEnd, ConnHow};
use crate::jobs::answer_job;
use crate::paths::Paths;
use crate::replier::{Replier, enter};
use crate::showing::{answer_contest, answer_page};
use farm_io::{Clock, Peer, PutEnd, Sink, Source};
use http_door::{Ending, Head, HttpReader, Refusal, ResponseFault};
use std::alloc::Global;
use wire_json::BodyFault;

/// Does what is asked, and puts the response.
fn answer_asked<A: Replier, K: Sink>(
    alloc: Global,
    replier: &A,
    state: &mut A::State,
    moment: u64,
    asked: &Asked,
    closing: bool,
    sink: &mut K,
) -> Result<(), ResponseFault>
    requires suits { A.suits replier.now state.old }
    requires calls { 3 ≤ A.left state.old }
    requires told { asked.now ≢ Asked.Refused (RequestFault.BadBody BodyFault.NoMemory) }
    ensures puts { PutsAnswer A.steps (A.gives replier.now) closing moment asked.now state.old state.new (K.held sink.old) (K.held sink.new) result }
    ensures cause { HasCauseWritten (K.faults sink.old) (K.faults sink.new) result }
    ensures beside { K.beside sink.new ≡ K.beside sink.old }
    ensures left { A.left state.old ≤ A.left state.new + 3 }
    ensures suits { A.suits replier.now state.new }
{
    match asked {
        Asked::Refused(fault) => answer_fault(alloc, sink, closing, fault),
        Asked::Event { ticks, event } => match enter(replier, state, *ticks, moment, event) {
            Err(_) => Err(ResponseFault::NoMemory),
            Ok(reply) => answer_reply(alloc, sink, closing, &reply),
        },
        Asked::Job {
            part,
            judging,
            test,
        } => answer_job(
            alloc, replier, state, moment, *part, *judging, *test, closing, sink,
        ),
        Asked::Public => replier.show(alloc, state, closing, sink),
        Asked::Page => answer_page(alloc, replier, state, moment, closing, sink),
        Asked::Contest => answer_contest(alloc, replier, closing, sink),
    }
}

/// Whether the connection ends behind an answer.
fn how_after(written: Result<(), ResponseFault>, close: bool) -> Option<ConnHow>
    ensures { result ≡ how_after written close }
{
    match written {
        Ok(()) => {
            if close {
                return Some(ConnHow::Closed);
            }
            None
        }
        Err(ResponseFault::WriteFault) => Some(ConnHow::WriteFault),
        Err(ResponseFault::NoMemory) => Some(ConnHow::NoMemory),
    }
}

/// Whether the request or the server asks to close.
fn close_or(close: bool, closing: bool) -> bool
    ensures { result ≡ close_or close closing }
{
    close || closing
}

/// Answers one request. Where it is `closing`, the server asks to close behind the response.
fn answer_one<A: Replier, C: Clock, K: Sink>(
    alloc: Global,
    paths: &Paths,
    replier: &A,
    state: &mut A::State,
    clock: &C,
    head: &Head,
    body: &[u8],
    closing: bool,
    sink: &mut K,
) -> Option<ConnHow>
    requires suits { A.suits replier.now state.old }
    requires calls { 3 ≤ A.left state.old }
    requires text { IsUtf8 head.now.target }
    ensures puts { (asks : Bool) → (closing ≡ true → asks ≡ true) → OneAnswered A.steps (giving (A.gives replier.now) (around_of (C.shows clock.now) asks))
        state.old state.new (request_with head.now body.now) (K.held sink.old) (K.held sink.new) result }
    ensures later { K.faults sink.old ≤ K.faults sink.new }
    ensures write { result ≡ Some ConnHow.WriteFault → Rose (K.faults sink.old) (K.faults sink.new) }
    ensures kept { result ≢ Some ConnHow.WriteFault → K.faults sink.new ≡ K.faults sink.old }
    ensures beside { K.beside sink.new ≡ K.beside sink.old }
    ensures left { A.left state.old ≤ A.left state.new + 3 }
    ensures suits { A.suits replier.now state.new }
{
    let moment = clock.now();
    match read_request(alloc, paths, head, body) {
        Err(_) => Some(ConnHow::NoMemory),
        Ok(asked) => {
            let written = answer_asked(alloc, replier, state, moment, &asked, closing, sink);
            how_after(written, close_or(head.close, closing))
        }
    }
}

/// Puts the fixed response of a refusal, and says how the connection ends.
fn refuse<K: Sink>(sink: &mut K, refusal: Refusal) -> ConnHow
    ensures puts { Refuses (K.held sink.old) (K.held sink.new) (refusal_response refusal) result }
    ensures later { K.faults sink.old ≤ K.faults sink.new }
    ensures write { result ≡ ConnHow.WriteFault → Rose (K.faults sink.old) (K.faults sink.new) }
    ensures kept { result ≢ ConnHow.WriteFault → K.faults sink.new ≡ K.faults sink.old }
    ensures beside { K.beside sink.new ≡ K.beside sink.old }
{
    match sink.put(refusal.response().as_bytes()) {
        PutEnd::Done => ConnHow::BadRequest,
        PutEnd::Failed => ConnHow::WriteFault,
    }
}

/// Puts what belongs to the end of the requests, and says how the connection ends.
fn end_with<K: Sink>(sink: &mut K, ending: Ending) -> ConnHow
    ensures puts { PutsEnd (K.held sink.old) (K.held sink.new) ending result }
    ensures later { K.faults sink.old ≤ K.faults sink.new }
    ensures write { result ≡ ConnHow.WriteFault → Rose (K.faults sink.old) (K.faults sink.new) }
    ensures kept { result ≢ ConnHow.WriteFault → K.faults sink.new ≡ K.faults sink.old }
    ensures beside { K.beside sink.new ≡ K.beside sink.old }
{
    match ending {
        Ending::End => ConnHow::End,
        Ending::Cut => ConnHow::Cut,
        Ending::ReadFault => ConnHow::ReadFault,
        Ending::InputLimit => ConnHow::InputLimit,
        Ending::NoMemory => ConnHow::NoMemory,
        Ending::BadHead => refuse(sink, Refusal::BadHead),
        Ending::HeadTooLong { len: _ } => refuse(sink, Refusal::HeadTooLong),
        Ending::BodyTooLong { len: _ } => refuse(sink, Refusal::BodyTooLong),
        Ending::NoLength => refuse(sink, Refusal::NoLength),
    }
}

/// Reads one request and answers it, or says how the connection ends.
fn serve_request<A: Replier, C: Clock, N: Source + Sink + Peer>(
    alloc: Global,
    paths: &Paths,
    replier: &A,
    state: &mut A::State,
    clock: &C,
    reader: &mut HttpReader,
    conn: &mut N,
) -> Option<ConnHow>
    requires going { reader.old.ended ≡ None }
    requires suits { A.suits replier.now state.old }
    requires calls { 3 * budget reader.old ≤ A.left state.old }
    requires source { (n : N) → N.Source.beside n ≡ side (N.held n) (N.Sink.faults n) }
    requires sink { (n : N) → N.Sink.beside n ≡ side (N.left n) (N.Source.faults n) }
    ensures turned { Turned A.steps (giving (A.gives replier.now) (around_of (C.shows clock.now) N.Peer.asks))
        (record { state = state.old; left = N.left conn.old; held = N.held conn.old; ahead = reader.old.ahead; taken = reader.old.taken })
        (record { state = state.new; left = N.left conn.new; held = N.held conn.new; ahead = reader.new.ahead; taken = reader.new.taken })
        result }
    ensures going { IsNone result → reader.new.ended ≡ None }
    ensures suits { A.suits replier.now state.new }
    ensures calls { IsNone result → 3 * budget reader.new ≤ A.left state.new }
    ensures falls { IsNone result → budget reader.new < budget reader.old }
    ensures cause { HasCauseServed (N.Source.faults conn.old) (N.Source.faults conn.new)
        (N.Sink.faults conn.old) (N.Sink.faults conn.new) result }
{
    match reader.next_request(conn) {
        Ok(head) => {
            let closing = conn.is_asked_to_close();
            answer_one(
                alloc,
                paths,
                replier,
                state,
                clock,
                &head,
                reader.body(),
                closing,
                conn,
            )
        }
        Err(ending) => Some(end_with(conn, ending)),
    }
}

/// The end of a connection behind so many answered requests, of which the last may have asked to close.
fn end_after(requests: u64, how: ConnHow) -> ConnEnd
    requires { requests < 2 ^ 63 }
    ensures { result ≡ record { requests = answered_count requests how; how = how } }
{
    match how {
        ConnHow::Closed => ConnEnd {
            requests: requests + 1,
            how,
        },
        _ => ConnEnd { requests, how },
    }
}

/// Answers the requests of a connection until it ends, one after the other, each by at most three events. Where the
/// connection was asked to close, it ends behind the next response.
pub fn serve_on<A: Replier, C: Clock, N: Source + Sink + Peer>(
    alloc: Global,
    paths: &Paths,
    replier: &A,
    state: &mut A::State,
    clock: &C,
    conn: &mut N,
) -> ConnEnd
    requires suits { A.suits replier.now state.old }
    requires calls { 2 ^ 42 ≤ A.left state.old }
    requires source { (n : N) → N.Source.beside n ≡ side (N.held n) (N.Sink.faults n) }
    requires sink { (n : N) → N.Sink.beside n ≡ side (N.left n) (N.Source.faults n) }
    ensures served { IsServed (AreEntered A.steps) (giving (A.gives replier.now) (around_of (C.shows clock.now) N.Peer.asks))
        (untaken state.old (N.left conn.old) (N.held conn.old)) (untaken state.new (N.left conn.new) (N.held conn.new))
        result.requests result.how }
    ensures cause { HasCauseServed (N.Source.faults conn.old) (N.Source.faults conn.new)
        (N.Sink.faults conn.old) (N.Sink.faults conn.new) (Some result.how) }
{
    let mut reader = match HttpReader::new(alloc) {
        Ok(reader) => reader,
        Err(_) => {
            return ConnEnd {
                requests: 0,
                how: ConnHow::NoMemory,
            };
        }
    };
    let mut requests: u64 = 0;
    loop {
        if let Some(how) = serve_request(alloc, paths, replier, state, clock, &mut reader, conn) {
            return end_after(requests, how);
        }
        requests += 1;
    }
}
