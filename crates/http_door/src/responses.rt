ghost use Rattle.std.specs.Prelude.{◌≡◌, ◌≢◌, ◌++◌, ℕ, codes, length, take, Err, IfOk, OnOk, IfErr, string_bytes};
ghost use Rattle.std.specs.Fmt.{decimal};
ghost use Rattle.std.specs.Io.KnownBytes.{Appends};
ghost use Rattle.http_door.specs.Responses.{phrase_of, close_line, content_lines, head_lines, head_text, content_response, response_with, Writes, HasCauseWritten};

use farm_io::{PutEnd, Sink};
use farm_kinds::NoMemory;
use http::StatusCode;
use std::alloc::{AllocError, Global};

/// What the body of a response is.
#[derive(Clone, Copy, Debug, PartialEq, Eq)]
pub enum Content {
    Json,
    /// A page for people, in HTML, with a policy that lets it load nothing but what stands in it, and ask its server.
    Page,
}

/// Why a response was not written whole.
#[derive(Clone, Copy, Debug, PartialEq, Eq)]
pub enum ResponseFault {
    /// The sink failed, and perhaps a prefix of the response was put.
    WriteFault,
    /// No memory was left, and nothing was put.
    NoMemory,
}

/// The reason phrase of a status (RFC 9112, section 4), empty where the crate `http` has none.
fn phrase(status: &StatusCode) -> &'static str
    ensures { result.now ≡ phrase_of status.now }
{
    match status.canonical_reason() {
        Some(phrase) => phrase,
        None => "",
    }
}

/// The line that says that the connection ends behind the response, where it does (RFC 9112, section 9.6).
fn close_line(closing: bool) -> &'static str
    ensures { result.now ≡ close_line closing }
{
    if closing {
        return "connection: close\r\n";
    }
    ""
}

/// The lines that say what a body is, with what belongs to that.
fn content_lines(content: Content) -> &'static str
    ensures { result.now ≡ content_lines content }
{
    match content {
        Content::Json => "content-type: application/json\r\n",
        Content::Page => concat!(
            "content-type: text/html; charset=utf-8\r\n",
            "content-security-policy: default-src 'none'; ",
            "style-src 'sha256-G30TodyTMcG4q+tbaFjhqASOL2SBaKqaut9AMfWhnD4='; ",
            "script-src 'sha256-jIWpfSAAKJsUAfPwlhFnoXZ4J5Sc3VOnc2W3TTwhj2s='; ",
            "connect-src 'self'; base-uri 'none'; form-action 'none'; frame-ancestors 'none'\r\n",
            "x-content-type-options: nosniff\r\n",
        ),
    }
}

/// The head of a response with this code and phrase, and these texts as its last fields.
fn write_lines(
    alloc: Global,
    code: u16,
    phrase: &str,
    len: usize,
    what: &str,
    last: &str,
) -> Result<String, AllocError>
    ensures { IfOk result (λ text. string_bytes text ≡ head_lines code phrase.now len what.now last.now) }
{
    format!(in alloc; "HTTP/1.1 {code} {phrase}\r\ncontent-length: {len}\r\n{what}{last}\r\n")
}

/// The head of a response with a body of so many bytes.
fn write_head(
    alloc: Global,
    content: Content,
    closing: bool,
    status: &StatusCode,
    len: usize,
) -> Result<String, AllocError>
    ensures { IfOk result (λ text. string_bytes text ≡ head_text content closing status.now len) }
{
    write_lines(
        alloc,
        status.as_u16(),
        phrase(status),
        len,
        content_lines(content),
        close_line(closing),
    )
}

/// Puts a response whose body is JSON, as [`write_content`] does.
pub fn write_response<K: Sink>(
    alloc: Global,
    sink: &mut K,
    closing: bool,
    status: StatusCode,
    body: &[u8],
) -> Result<(), ResponseFault>
    ensures writes { Writes (K.held sink.old) (K.held sink.new) (response_with closing status body.now) result }
    ensures cause { HasCauseWritten (K.faults sink.old) (K.faults sink.new) result }
    ensures beside { K.beside sink.new ≡ K.beside sink.old }
{
    write_content(alloc, sink, Content::Json, closing, status, body)
}

/// Puts a response: the status line, a line for `content-length`, those of its content, one for `connection` where the
/// server ends the connection behind it (`closing`), an empty line and the body.
pub fn write_content<K: Sink>(
    alloc: Global,
    sink: &mut K,
    content: Content,
    closing: bool,
    status: StatusCode,
    body: &[u8],
) -> Result<(), ResponseFault>
    ensures writes { Writes (K.held sink.old) (K.held sink.new) (content_response content closing status body.now) result }
    ensures cause { HasCauseWritten (K.faults sink.old) (K.faults sink.new) result }
    ensures beside { K.beside sink.new ≡ K.beside sink.old }
{
    match response_bytes(alloc, content, closing, status, body) {
        Err(_) => Err(ResponseFault::NoMemory),
        Ok(response) => put_response(sink, response.as_slice()),
    }
}

/// The bytes of a response, as [`write_content`] puts them.
pub fn response_bytes(
    alloc: Global,
    content: Content,
    closing: bool,
    status: StatusCode,
    body: &[u8],
) -> Result<Vec<u8>, AllocError>
    ensures { IfOk result (λ text. text.items ≡ content_response content closing status body.now) }
{
    let mut text = write_head(alloc, content, closing, &status, body.len())?.into_bytes();
    text.extend_from_slice(body)?;
    Ok(text)
}

/// Puts the bytes of a response that was made before. They are put at once: a second piece may wait until the peer has
/// told that the first one came.
pub fn put_response<K: Sink>(sink: &mut K, response: &[u8]) -> Result<(), ResponseFault>
    ensures writes { Writes (K.held sink.old) (K.held sink.new) response.now result }
    ensures cause { HasCauseWritten (K.faults sink.old) (K.faults sink.new) result }
    ensures sure { result ≢ Err ResponseFault.NoMemory }
    ensures beside { K.beside sink.new ≡ K.beside sink.old }
{
    match sink.put(response) {
        PutEnd::Failed => Err(ResponseFault::WriteFault),
        PutEnd::Done => Ok(()),
    }
}
