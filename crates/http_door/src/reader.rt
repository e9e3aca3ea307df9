ghost use Rattle.std.specs.Prelude.{◌≡◌, ◌+◌, ◌<◌, ◌≤◌, [], length, None, Some, Err, IfSome, IfOk, IfErr, IsOk};
ghost use Rattle.httparse.specs.Spans.{span_bytes, IsWithin};
ghost use Rattle.farm_io.specs.Lines.{input_limit};
ghost use Rattle.http_door.specs.declared.ending.Ending.{Ending as Cause};
ghost use Rattle.http_door.specs.Heads.{head_limit};
ghost use Rattle.http_door.specs.Requests.{HoldsRequest};
ghost use Rattle.http_door.specs.Finding.{HasWhole, HasParts};
ghost use Rattle.http_door.specs.ReaderValue.{budget, room_limit, IsReadable};
ghost use Rattle.http_door.specs.Reading.{Reads, ReadsIn, EndsWith, IsEndFor, HasCauseNext, HasCauseGiven, IsStopped};

use crate::ending::Ending;
use crate::finding::{HEAD_LIMIT, Whole, take_request};
use crate::window::Window;
use farm_io::Source;
use farm_kinds::{NoMemory, Text};
use httparse::spans::Span;
use std::alloc::Global;
use std::marker::Model;

/// What the head of a request says, beside the length of its body.
#[derive(Debug, Drop)]
pub struct Head {
    /// The method token, as `GET` (RFC 9110, section 9.1).
    pub method: Text,
    /// The request target as it was sent, nothing decoded (RFC 9112, section 3.2). It is UTF-8.
    pub target: Text,
    /// Whether the connection ends behind the response: the request has a field `connection: close` or is
    /// of version 1.0 (RFC 9112, section 9.3).
    pub close: bool,
}

/// Cuts the bytes of a connection into requests.
///
/// It has memory for 32 KiB from the start, and takes more only for a body that does not fit: for that it
/// grows once, to at most [`HEAD_LIMIT`] and [`BODY_LIMIT`](crate::BODY_LIMIT) bytes together.
#[derive(Drop)]
pub struct HttpReader {
    alloc: Global,
    window: Window,
    body: usize,
    ended: Option<Ending>,
}

impl Model for HttpReader {
    ghost use Rattle.http_door.specs.ReaderValue.{ReaderValue};

    ghost Value = { ReaderValue };

    ghost use Rattle.http_door.specs.ReaderShape.{reader_value, IsReaderShape};

    ghost view = { reader_value };

    ghost invariant = { IsReaderShape };
}

impl HttpReader {
    /// A reader that has taken nothing yet.
    pub fn new(alloc: Global) -> Result<HttpReader, NoMemory>
        ensures { IfOk result (λ r. r ≡ record { ahead = []; taken = 0; body = []; ended = None; room = 32768 }) }
    {
        let window = Window::new(alloc, 2 * HEAD_LIMIT)?;
        Ok(HttpReader {
            alloc,
            window,
            body: 0,
            ended: None,
        })
    }

    /// The body of the request that the last call of [`HttpReader::next_request`] gave. It is empty where
    /// that call gave none.
    pub fn body(&self) -> &[u8]
        ensures { result.now ≡ self.now.body }
    {
        &self.window.ahead()[..self.body]
    }

    /// Reads the next request, whose body [`HttpReader::body`] then shows.
    ///
    /// After an `Err` it answers the same again and asks the source no more.
    pub fn next_request<S: Source>(&mut self, source: &mut S) -> Result<Head, Ending>
        ensures reads { Reads (S.left source.old) (S.left source.new) self.old self.new result }
        ensures readable { IsReadable self.new }
        ensures ends { EndsWith result self.new.ended }
        ensures ended { IsEndFor self.old.ended (S.left source.old) → IsEndFor self.new.ended (S.left source.new) }

        // Once it has ended it stays so.
        ensures sticky { (e : Cause) → self.old.ended ≡ Some e
            → (result ≡ Err e) × (self.new ≡ self.old) × (source.new ≡ source.old) }

        // A request that is held whole is given without asking the source; only want of memory keeps it back.
        ensures held { HoldsRequest self.old.ahead
            → (source.new ≡ source.old) × IfSome self.new.ended (λ e. e ≡ Ending.NoMemory) }

        // Each request brings the end nearer.
        ensures falls { IsOk result → budget self.new < budget self.old }
        ensures limit { result ≡ Err Ending.InputLimit → self.old.ended ≡ None → self.new.taken ≡ input_limit }
        ensures cause { HasCauseNext self.old.ended (S.faults source.old) (S.faults source.new) result }
        ensures beside { S.beside source.new ≡ S.beside source.old }
    {
        if let Some(ending) = self.ended {
            return Err(ending);
        }
        self.window.drop_front(self.body);
        self.body = 0;
        match give_next(self.alloc, &mut self.window, source) {
            Ok((head, len)) => {
                self.body = len;
                Ok(head)
            }
            Err(ending) => {
                self.ended = Some(ending);
                Err(ending)
            }
        }
    }
}

/// A copy of the bytes of a span.
fn text_at(alloc: Global, bytes: &[u8], span: Span) -> Result<Text, NoMemory>
    requires { IsWithin (length bytes.now) span }
    ensures { IfOk result (λ t. t ≡ span_bytes bytes.now span) }
{
    let copy = Vec::from_slice(alloc, span.of(bytes))?;
    Ok(Text::from_vec(copy))
}

/// The head of a whole request.
fn head_of(alloc: Global, bytes: &[u8], whole: Whole) -> Result<Head, NoMemory>
    requires { HasWhole bytes.now whole }
    ensures { IfOk result (HasParts bytes.now whole) }
{
    let method = text_at(alloc, bytes, whole.seen.method)?;
    let target = text_at(alloc, bytes, whole.seen.target)?;
    Ok(Head {
        method,
        target,
        close: whole.seen.close,
    })
}

/// Gives the head of the request at the front of the window and the length of its body, which is left there.
fn give_next<S: Source>(
    alloc: Global,
    window: &mut Window,
    source: &mut S,
) -> Result<(Head, usize), Ending>
    requires room { head_limit < window.old.size }
    requires few { window.old.taken ≤ input_limit }
    ensures reads { ReadsIn (S.left source.old) (S.left source.new) window.old window.new result }
    ensures few { window.new.taken ≤ input_limit }
    ensures small { window.old.size ≤ room_limit → window.new.size ≤ room_limit }
    ensures beside { S.beside source.new ≡ S.beside source.old }
    ensures stopped { IfErr result (IsStopped (S.left source.new) window.new) }
    ensures cause { HasCauseGiven (S.faults source.old) (S.faults source.new) result }
    ensures held { HoldsRequest window.old.ahead
        → (source.new ≡ source.old) × IfErr result (λ e. e ≡ Ending.NoMemory) }
{
    match take_request(window, source) {
        Err(ending) => Err(ending),
        Ok(whole) => match head_of(alloc, window.ahead(), whole) {
            Err(_) => Err(Ending::NoMemory),
            Ok(head) => {
                window.drop_front(whole.seen.len);
                Ok((head, whole.len))
            }
        },
    }
}
