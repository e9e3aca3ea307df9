ghost use Rattle.std.specs.Prelude.{Some};
ghost use Rattle.farm_io.specs.Beside.{one_sided};

use crate::talks::{bytes_of, check_bytes};
use farm_io::{MemorySink, MemorySource, ReliableSink, ReliableSource, Source, Taken};
use farm_kinds::NoMemory;
use http::StatusCode;
use http_door::{Ending, Head, HttpReader, Refusal, ResponseFault, write_response};
use std::alloc::{AllocError, Global};
use std::process::Abort;
use std::test::Fail;

/// A source that gives a byte at a time, and counts how often it was asked.
#[derive(Drop)]
struct Slow {
    inner: ReliableSource,
    calls: u64,
}

impl Slow {
    fn new(bytes: Vec<u8>) -> Slow {
        Slow {
            inner: ReliableSource::new(bytes),
            calls: 0,
        }
    }
}

impl Source for Slow {
    ghost left = { λ s. Some s.inner };

    ghost faults = { λ _. 0 };

    ghost beside = { λ _. one_sided };

    fn take(&mut self, room: &mut [u8]) -> Taken {
        self.calls = self.calls.saturating_add(1);
        self.inner.take(&mut room[..1])
    }
}

/// The name of an ending.
fn ending_name(ending: Ending) -> &'static [u8] {
    match ending {
        Ending::End => b"end",
        Ending::Cut => b"cut",
        Ending::BadHead => b"bad-head",
        Ending::HeadTooLong { len: 16_384 } => b"head-too-long",
        Ending::HeadTooLong { len: _ } => b"head-too-long of another length",
        Ending::BodyTooLong { len: 33_554_433 } => b"body-too-long",
        Ending::BodyTooLong { len: _ } => b"body-too-long of another length",
        Ending::NoLength => b"no-length",
        Ending::ReadFault => b"read-fault",
        Ending::InputLimit => b"input-limit",
        Ending::NoMemory => b"memory",
    }
}

/// The name of an answer: that of its ending, or `request`.
fn name_of(next: &Result<Head, Ending>) -> &'static [u8] {
    match next {
        Ok(_) => b"request",
        Err(ending) => ending_name(*ending),
    }
}

/// Appends the parts of a request, with a bar behind them.
fn push_request(shown: &mut Vec<u8>, head: &Head, body: &[u8]) -> Result<(), AllocError> {
    shown.extend_from_slice(head.method.as_slice())?;
    shown.extend_from_slice(b" ")?;
    shown.extend_from_slice(head.target.as_slice())?;
    shown.extend_from_slice(if head.close { b" close " } else { b" keep " })?;
    shown.extend_from_slice(body)?;
    shown.extend_from_slice(b"|")
}

/// Appends the name of an ending, and the body that is shown then.
fn push_ending(shown: &mut Vec<u8>, ending: Ending, body: &[u8]) -> Result<(), AllocError> {
    shown.extend_from_slice(ending_name(ending))?;
    shown.extend_from_slice(body)?;
    shown.extend_from_slice(b" ")
}

/// Appends a request or the name of an ending, and says whether it was a request.
fn push_answer(
    shown: &mut Vec<u8>,
    next: &Result<Head, Ending>,
    body: &[u8],
) -> Result<bool, AllocError> {
    match next {
        Ok(head) => push_request(shown, head, body)?,
        Err(ending) => push_ending(shown, *ending, body)?,
    }
    Ok(next.is_ok())
}

/// Appends the next answer, and says whether it was a request.
fn push_next<S: Source>(
    shown: &mut Vec<u8>,
    reader: &mut HttpReader,
    source: &mut S,
) -> Result<bool, AllocError> {
    let next = reader.next_request(source);
    push_answer(shown, &next, reader.body())
}

/// Appends all requests, and the answers to three calls behind them.
fn push_all<S: Source>(
    shown: &mut Vec<u8>,
    reader: &mut HttpReader,
    source: &mut S,
) -> Result<(), AllocError> {
    let mut ends = 0u8;
    for _ in 0..100u64 {
        if ends == 3 {
            break;
        }
        if !push_next(shown, reader, source)? {
            ends = ends.saturating_add(1);
        }
    }
    Ok(())
}

/// The requests of the source, each with its parts and a bar behind it, and the name of the answer behind
/// them, once for each of three calls.
fn read_all<S: Source>(alloc: Global, source: &mut S) -> Result<Vec<u8>, NoMemory> {
    let mut reader = HttpReader::new(alloc)?;
    let mut shown = Vec::new(alloc);
    push_all(&mut shown, &mut reader, source)?;
    Ok(shown)
}

/// The text in which a piece between `«` and `»` stands as often as the number behind it says.
fn unrolled(alloc: Global, text: &str) -> Result<String, AllocError> {
    let (prefix, rest) = text.split_once('«').unwrap_or((text, ""));
    let (piece, rest) = rest.split_once('*').unwrap_or(("", rest));
    let (count, back) = rest.split_once('»').unwrap_or(("", rest));
    let mut long = String::from_str(alloc, prefix)?;
    for _ in 0..count.parse::<u32>().unwrap_or(0) {
        long.push_str(piece)?;
    }
    long.push_str(back)?;
    Ok(long)
}

/// The bytes that a part of a row writes.
fn long_bytes_of(alloc: Global, text: &str) -> Result<Vec<u8>, AllocError> {
    bytes_of(alloc, unrolled(alloc, text)?.as_str())
}

/// What comes, and what is read of it, a line each, which `long_bytes_of` reads.
const TEXTS: &str = concat!(
    " => end end end \n",
    "GET / HTTP/1.1^~^~ => GET / keep |end end end \n",
    "GET /a%20b%2Fc?x=1%3F&y HTTP/1.1^~host: x^~^~ => GET /a%20b%2Fc?x=1%3F&y keep |end end end \n",
    "GET / HTTP/1.1~~ => GET / keep |end end end \n",
    "^~~GET / HTTP/1.1^~^~ => GET / keep |end end end \n",
    "POST / HTTP/1.1^~cOnTent-LENGTH: \t2 ^~^~ab => POST / keep ab|end end end \n",
    "POST /a HTTP/1.1^~content-length: 0^~^~PUT /b HTTP/1.1^~content-length: 3^~^~~^~GET /c HTTP/1.1^~^~ => POST /a keep |PUT /b keep ~^~|GET /c keep |end end end \n",
    "GET / HTTP/1.1^~a: 1^~a: 1^~^~ => GET / keep |end end end \n",
    "POST / HTTP/1.1^~Content-Length: 2^~content-length: 2^~^~ab => bad-head bad-head bad-head \n",
    "POST / HTTP/1.1^~content-length: 2x^~^~ab => bad-head bad-head bad-head \n",
    "POST / HTTP/1.1^~content-length: 0000000000000000002^~^~ab => bad-head bad-head bad-head \n",
    "POST / HTTP/1.1^~host: x^~^~ab => no-length no-length no-length \n",
    "GET / HTTP/1.1^~Transfer-Encoding: chunked^~^~0^~^~ => no-length no-length no-length \n",
    "POST / HTTP/1.1^~content-length: 2^~transfer-encoding: identity^~^~ab => no-length no-length no-length \n",
    "POST / HTTP/1.1^~content-length: 33554433^~^~ => body-too-long body-too-long body-too-long \n",
    "POST / HTTP/1.1^~content-length: 33554433^~transfer-encoding: x^~^~ => no-length no-length no-length \n",
    "GET / HTTP/1.1^~Connection: Close^~^~GET / HTTP/1.1^~connection: keep-alive, close^~^~ => GET / close |GET / keep |end end end \n",
    "GET / HTTP/1.0^~connection: keep-alive^~^~ => GET / close |end end end \n",
    "GET / HTTP/1.2^~^~ => bad-head bad-head bad-head \n",
    "G@T / HTTP/1.1^~^~ => bad-head bad-head bad-head \n",
    "GET  / HTTP/1.1^~^~ => bad-head bad-head bad-head \n",
    "GET / HTTP/1.1^~host : x^~^~ => bad-head bad-head bad-head \n",
    "G@T => bad-head bad-head bad-head \n",
    "GET / HTTP/1.1^~^~^~ => GET / keep |cut cut cut \n",
    "GET / HTTP/1.1^~host: x^~ => cut cut cut \n",
    "POST / HTTP/1.1^~content-length: 3^~^~ab => cut cut cut \n",
    "GET /a HTTP/1.1^~^~POST / HTTP/1.1^~content-length: 1^~^~ => GET /a keep |cut cut cut \n",
);

/// Lines as those of `TEXTS`: heads of 64 and 65 fields, heads of 16,384 and 16,385 bytes, and as many without a line
/// feed.
const LONG: &str = concat!(
    "GET / HTTP/1.1^~«a: b^~*64»^~ => GET / keep |end end end \n",
    "GET / HTTP/1.1^~«a: b^~*65»^~ => bad-head bad-head bad-head \n",
    "GET / HTTP/1.1^~a: «x*16361»^~^~ => GET / keep |end end end \n",
    "GET / HTTP/1.1^~a: «x*16362»^~^~ => head-too-long head-too-long head-too-long \n",
    "GET /«x*16379» => head-too-long head-too-long head-too-long \n",
    "GET /«x*16378» => cut cut cut \n",
);

/// Compares what is read of bytes that come in this way.
fn check_shown(rt: &impl Abort, read: &[u8], shown: &[u8], how: &str, name: &str) {
    assert_eq!(rt; read, shown, "{how} {name}");
}

/// Compares what is read of a source.
fn check_read<S: Source>(
    rt: &impl Abort,
    alloc: Global,
    source: &mut S,
    shown: &[u8],
    how: &str,
    name: &str,
) -> Result<(), Fail> {
    let read = read_all(alloc, source)?;
    check_shown(rt, read.as_slice(), shown, how, name);
    Ok(())
}

/// Compares what is read of bytes that come at once, and one by one.
fn check_text(rt: &impl Abort, alloc: Global, row: &str) -> Result<(), Fail> {
    let (text, shown) = row.split_once(" => ").unwrap_or((row, ""));
    let shown = bytes_of(alloc, shown)?;
    let mut whole = ReliableSource::new(long_bytes_of(alloc, text)?);
    check_read(rt, alloc, &mut whole, shown.as_slice(), "at once", text)?;
    let mut slow = Slow::new(long_bytes_of(alloc, text)?);
    check_read(rt, alloc, &mut slow, shown.as_slice(), "one by one", text)
}

#[test]
fn cuts_requests(rt: HostRuntime) -> Result<(), Fail> {
    for row in TEXTS.lines() {
        check_text(&rt, rt.alloc(), row)?;
    }
    Ok(())
}

#[test]
fn keeps_to_the_limits_of_heads(rt: HostRuntime) -> Result<(), Fail> {
    for row in LONG.lines() {
        check_text(&rt, rt.alloc(), row)?;
    }
    Ok(())
}

/// What stands in front of `=>` in a row, as bytes.
fn request_of(alloc: Global, row: &str) -> Result<Vec<u8>, AllocError> {
    let (request, _) = row.split_once(" => ").unwrap_or((row, ""));
    bytes_of(alloc, request)
}

/// Heads, and how long the bodies are that they say, a line each.
const BODIES: &str = concat!(
    "PUT /a HTTP/1.1^~content-length: 20000^~^~ => 20000\n",
    "PUT /b HTTP/1.1^~content-length: 100000^~^~ => 100000\n",
    "PUT /c HTTP/1.1^~content-length: 33554432^~^~ => 33554432\n",
);

/// A body as long as the head of a row says.
fn body_of(alloc: Global, row: &str) -> Result<Vec<u8>, AllocError> {
    let (_, len) = row.split_once(" => ").unwrap_or((row, ""));
    vec![in alloc; b'x'; len.parse::<usize>().unwrap_or(0)]
}

/// All heads with their bodies.
fn bodies(alloc: Global) -> Result<Vec<u8>, AllocError> {
    let mut text = Vec::new(alloc);
    for row in BODIES.lines() {
        text.extend_from_slice(request_of(alloc, row)?.as_slice())?;
        text.extend_from_slice(body_of(alloc, row)?.as_slice())?;
    }
    Ok(text)
}

/// Compares the next body.
fn check_body<S: Source>(
    rt: &impl Abort,
    alloc: Global,
    reader: &mut HttpReader,
    source: &mut S,
    row: &str,
) -> Result<(), Fail> {
    let body = body_of(alloc, row)?;
    let name = name_of(&reader.next_request(source));
    check_bytes(rt, name, b"request", row);
    check_bytes(rt, reader.body(), body.as_slice(), row);
    Ok(())
}

/// Compares all bodies, and what comes behind them.
fn check_bodies<S: Source>(
    rt: &impl Abort,
    alloc: Global,
    reader: &mut HttpReader,
    source: &mut S,
) -> Result<(), Fail> {
    for row in BODIES.lines() {
        check_body(rt, alloc, reader, source, row)?;
    }
    assert_eq!(rt; name_of(&reader.next_request(source)), b"end".as_slice());
    Ok(())
}

#[test]
fn gives_long_bodies(rt: HostRuntime) -> Result<(), Fail> {
    let alloc = rt.alloc();
    let mut source = ReliableSource::new(bodies(alloc)?);
    let mut reader = HttpReader::new(alloc)?;
    check_bodies(&rt, alloc, &mut reader, &mut source)
}

/// A judgehost that registers, asks for work and posts a result: its requests, and what is read of them, a line each.
const REQUESTS: &str = concat!(
    "POST /judgehosts HTTP/1.1^~host: x^~content-length: 17^~^~{\"hostname\":\"h1\"} => POST /judgehosts keep {\"hostname\":\"h1\"}|\n",
    "POST /judgehosts/fetch-work HTTP/1.1^~host: x^~content-length: 17^~^~{\"hostname\":\"h1\"} => POST /judgehosts/fetch-work keep {\"hostname\":\"h1\"}|\n",
    "POST /judgehosts/add-judging-run HTTP/1.1^~host: x^~content-length: 57^~^~{\"hostname\":\"h1\",\"judging\":1,\"test\":1,\"result\":\"correct\"} => POST /judgehosts/add-judging-run keep {\"hostname\":\"h1\",\"judging\":1,\"test\":1,\"result\":\"correct\"}|\n",
);

/// These bytes, one behind the other.
fn joined(alloc: Global, prefix: &[u8], back: &[u8]) -> Result<Vec<u8>, AllocError> {
    let mut bytes = prefix.to_vec(alloc)?;
    bytes.extend_from_slice(back)?;
    Ok(bytes)
}

/// Compares what is read where nothing comes behind the first bytes of a request.
fn check_cut(
    rt: &impl Abort,
    alloc: Global,
    before: &[u8],
    shown: &[u8],
    part: &[u8],
) -> Result<(), Fail> {
    let end = if part.is_empty() {
        b"end end end "
    } else {
        b"cut cut cut "
    };
    let at = part.len().to_string(alloc)?;
    let shown = joined(alloc, shown, end)?;
    let mut source = ReliableSource::new(joined(alloc, before, part)?);
    check_read(
        rt,
        alloc,
        &mut source,
        shown.as_slice(),
        "cut at byte",
        at.as_str(),
    )
}

/// Compares what is read where reading fails behind the first bytes of a request.
fn check_fault(
    rt: &impl Abort,
    alloc: Global,
    before: &[u8],
    shown: &[u8],
    part: &[u8],
) -> Result<(), Fail> {
    let call = if before.is_empty() && part.is_empty() {
        0
    } else {
        1
    };
    let at = part.len().to_string(alloc)?;
    let shown = joined(alloc, shown, b"read-fault read-fault read-fault ")?;
    let calls = [call].to_vec(alloc)?;
    let mut source = MemorySource::new(joined(alloc, before, part)?, calls);
    check_read(
        rt,
        alloc,
        &mut source,
        shown.as_slice(),
        "fault at byte",
        at.as_str(),
    )
}

/// Compares what is read where a request is cut at each byte, and adds it to those before it.
fn check_request(
    rt: &impl Abort,
    alloc: Global,
    before: &mut Vec<u8>,
    shown: &mut Vec<u8>,
    row: &str,
) -> Result<(), Fail> {
    let (request, read) = row.split_once(" => ").unwrap_or((row, ""));
    let request = bytes_of(alloc, request)?;
    for at in 0..request.len() {
        let part = &request.as_slice()[..at];
        check_cut(rt, alloc, before.as_slice(), shown.as_slice(), part)?;
        check_fault(rt, alloc, before.as_slice(), shown.as_slice(), part)?;
    }
    before.extend_from_slice(request.as_slice())?;
    shown.extend_from_slice(read.as_bytes())?;
    Ok(())
}

#[test]
fn requests_cut_at_each_byte(rt: HostRuntime) -> Result<(), Fail> {
    let alloc = rt.alloc();
    let mut before = Vec::new(alloc);
    let mut shown = Vec::new(alloc);
    for row in REQUESTS.lines() {
        check_request(&rt, alloc, &mut before, &mut shown, row)?;
    }
    check_cut(&rt, alloc, before.as_slice(), shown.as_slice(), b"")
}

/// All requests.
fn requests(alloc: Global) -> Result<Vec<u8>, AllocError> {
    let mut text = Vec::new(alloc);
    for row in REQUESTS.lines() {
        text.extend_from_slice(request_of(alloc, row)?.as_slice())?;
    }
    Ok(text)
}

/// Compares how many bytes were taken behind each request.
fn check_taken(
    rt: &impl Abort,
    alloc: Global,
    reader: &mut HttpReader,
    slow: &mut Slow,
) -> Result<(), Fail> {
    let mut sent = 0u64;
    for row in REQUESTS.lines() {
        sent = sent.saturating_add(request_of(alloc, row)?.len() as u64);
        let name = name_of(&reader.next_request(slow));
        assert_eq!(rt; (name, slow.calls), (b"request".as_slice(), sent));
    }
    Ok(())
}

#[test]
fn takes_nothing_behind_a_request(rt: HostRuntime) -> Result<(), Fail> {
    let alloc = rt.alloc();
    let mut slow = Slow::new(requests(alloc)?);
    let mut reader = HttpReader::new(alloc)?;
    check_taken(&rt, alloc, &mut reader, &mut slow)
}

/// Statuses and bodies, and the responses that are put of them, a line each.
const RESPONSES: &str = concat!(
    "200|{\"reply\":\"nothing\"} => HTTP/1.1 200 OK^~content-length: 19^~content-type: application/json^~^~{\"reply\":\"nothing\"}\n",
    "404|{\"reply\":\"no-route\"} => HTTP/1.1 404 Not Found^~content-length: 20^~content-type: application/json^~^~{\"reply\":\"no-route\"}\n",
    "405|{\"reply\":\"no-method\"} => HTTP/1.1 405 Method Not Allowed^~content-length: 21^~content-type: application/json^~^~{\"reply\":\"no-method\"}\n",
    "409|{} => HTTP/1.1 409 Conflict^~content-length: 2^~content-type: application/json^~^~{}\n",
    "400| => HTTP/1.1 400 Bad Request^~content-length: 0^~content-type: application/json^~^~\n",
);

/// Compares how a put of a response ended, and what was put.
fn check_put(
    rt: &impl Abort,
    end: Result<(), ResponseFault>,
    wanted: Result<(), ResponseFault>,
    put: &[u8],
    response: &[u8],
) {
    assert_eq!(rt; (end, put), (wanted, response));
}

/// Compares the response that is put.
fn check_response(
    rt: &impl Abort,
    alloc: Global,
    status: StatusCode,
    body: &[u8],
    response: &str,
) -> Result<(), Fail> {
    let expected = bytes_of(alloc, response)?;
    let mut sink = ReliableSink::new(Vec::with_capacity(alloc, 200)?);
    let end = write_response(alloc, &mut sink, false, status, body);
    check_put(rt, end, Ok(()), sink.bytes(), expected.as_slice());
    Ok(())
}

/// Checks that nothing is put where the first put fails.
fn check_broken_sink(
    rt: &impl Abort,
    alloc: Global,
    status: StatusCode,
    body: &[u8],
) -> Result<(), Fail> {
    let mut sink = MemorySink::new(Vec::with_capacity(alloc, 200)?, [0].to_vec(alloc)?);
    let end = write_response(alloc, &mut sink, false, status, body);
    check_put(rt, end, Err(ResponseFault::WriteFault), sink.bytes(), b"");
    Ok(())
}

#[test]
fn puts_responses(rt: HostRuntime) -> Result<(), Fail> {
    for row in RESPONSES.lines() {
        let (given, response) = row.split_once(" => ").unwrap_or((row, ""));
        let (status, body) = given.split_once('|').unwrap_or((given, ""));
        let Ok(status) = StatusCode::from_bytes(status.as_bytes()) else {
            return Err(Fail::new("no status"));
        };
        check_response(&rt, rt.alloc(), status, body.as_bytes(), response)?;
        check_broken_sink(&rt, rt.alloc(), status, body.as_bytes())?;
    }
    Ok(())
}

/// Heads that are refused, and the responses to them, a line each, which `long_bytes_of` reads.
const REFUSED: &str = concat!(
    "GET^~^~ => HTTP/1.1 400 Bad Request^~content-length: 20^~content-type: application/json^~^~{\"reply\":\"bad-head\"}\n",
    "PUT / HTTP/1.1^~content-length: 33554433^~^~ => HTTP/1.1 413 Payload Too Large^~content-length: 25^~content-type: application/json^~^~{\"reply\":\"body-too-long\"}\n",
    "POST / HTTP/1.1^~^~ => HTTP/1.1 411 Length Required^~content-length: 21^~content-type: application/json^~^~{\"reply\":\"no-length\"}\n",
    "«~*16384» => HTTP/1.1 431 Request Header Fields Too Large^~content-length: 25^~content-type: application/json^~^~{\"reply\":\"head-too-long\"}\n",
);

/// Why what comes is refused, if it is.
fn refusal_of(alloc: Global, text: &str) -> Result<Option<Refusal>, NoMemory> {
    let mut source = ReliableSource::new(long_bytes_of(alloc, text)?);
    let mut reader = HttpReader::new(alloc)?;
    match reader.next_request(&mut source) {
        Ok(_) => Ok(None),
        Err(ending) => Ok(Refusal::of(ending)),
    }
}

/// Compares the response of a refusal.
fn check_refusal(
    rt: &impl Abort,
    alloc: Global,
    refusal: Refusal,
    response: &str,
) -> Result<(), Fail> {
    let expected = bytes_of(alloc, response)?;
    assert_eq!(rt; refusal.response().as_bytes(), expected.as_slice());
    Ok(())
}

#[test]
fn answers_refusals(rt: HostRuntime) -> Result<(), Fail> {
    let alloc = rt.alloc();
    for row in REFUSED.lines() {
        let (text, response) = row.split_once(" => ").unwrap_or((row, ""));
        let Some(refusal) = refusal_of(alloc, text)? else {
            return Err(Fail::new("not refused"));
        };
        check_refusal(&rt, alloc, refusal, response)?;
    }
    assert_eq!(rt; refusal_of(alloc, "")?, None);
    Ok(())
}
