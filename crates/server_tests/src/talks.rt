//! Requests of judgehosts and the responses to them, which tests name by words.

ghost use Rattle.std.specs.Prelude.{IfOk};
ghost use Rattle.farm_io.specs.MemoryDoors.{IsReliableNew};

use farm_api::ConnEnd;
use farm_io::{Connection, Listening, ReliableConn, ReliableSink, ReliableSource};
use std::alloc::{AllocError, Global};
use std::net::{IpAddr, Ipv4Addr};
use std::process::Abort;

/// Requests, parts of requests and responses, a line each: the word, and the text.
const TEXTS: &str = concat!(
    "host => POST /judgehosts HTTP/1.1^~host: x^~content-length: 17^~^~{\"hostname\":\"h1\"}\n",
    "other-host => POST /judgehosts HTTP/1.1^~host: x^~content-length: 17^~^~{\"hostname\":\"h2\"}\n",
    "fetch => POST /judgehosts/fetch-work HTTP/1.1^~host: x^~content-length: 17^~^~{\"hostname\":\"h1\"}\n",
    "other-fetch => POST /judgehosts/fetch-work HTTP/1.1^~host: x^~content-length: 17^~^~{\"hostname\":\"h2\"}\n",
    "correct => POST /judgehosts/add-judging-run HTTP/1.1^~host: x^~content-length: 57^~^~{\"hostname\":\"h1\",\"judging\":1,\"test\":1,\"result\":\"correct\"}\n",
    "other-wrong => POST /judgehosts/add-judging-run HTTP/1.1^~host: x^~content-length: 62^~^~{\"hostname\":\"h2\",\"judging\":1,\"test\":1,\"result\":\"wrong-answer\"}\n",
    "last-timelimit => POST /judgehosts/add-judging-run HTTP/1.1^~host: x^~connection: close^~content-length: 59^~^~{\"hostname\":\"h1\",\"judging\":1,\"test\":1,\"result\":\"timelimit\"}\n",
    "job => GET /judgehosts/job/1/1 HTTP/1.1^~host: x^~^~\n",
    "rejudged-job => GET /judgehosts/job/2/1 HTTP/1.1^~host: x^~^~\n",
    "job-without-case => GET /judgehosts/job/1/2 HTTP/1.1^~host: x^~^~\n",
    "job-past-tests => GET /judgehosts/job/1/65537 HTTP/1.1^~host: x^~^~\n",
    "rejudge => POST /rejudgings HTTP/1.1^~host: x^~content-length: 19^~^~{\"submissions\":[1]}\n",
    "rejudged-wrong => POST /judgehosts/add-judging-run HTTP/1.1^~host: x^~content-length: 62^~^~{\"hostname\":\"h1\",\"judging\":2,\"test\":1,\"result\":\"wrong-answer\"}\n",
    "apply => POST /rejudgings/1/apply HTTP/1.1^~host: x^~content-length: 0^~^~\n",
    "public => GET /public HTTP/1.1^~host: x^~^~\n",
    "contest => GET /contest HTTP/1.1^~host: x^~^~\n",
    "cut => GET /board HTTP/1.1^~\n",
    "no-head => GET^~\n",
    "is-up => HTTP/1.1 200 OK^~content-length: 28^~content-type: application/json^~^~{\"host\":\"h1\",\"reply\":\"host\"}\n",
    "other-is-up => HTTP/1.1 200 OK^~content-length: 28^~content-type: application/json^~^~{\"host\":\"h2\",\"reply\":\"host\"}\n",
    "handed => HTTP/1.1 200 OK^~content-length: 48^~content-type: application/json^~^~{\"judging\":1,\"reply\":\"task\",\"test\":1,\"until\":60}\n",
    "counted => HTTP/1.1 200 OK^~content-length: 19^~content-type: application/json^~^~{\"reply\":\"counted\"}\n",
    "counted-last => HTTP/1.1 200 OK^~content-length: 19^~content-type: application/json^~connection: close^~^~{\"reply\":\"counted\"}\n",
    "repeat => HTTP/1.1 200 OK^~content-length: 35^~content-type: application/json^~^~{\"kept\":\"correct\",\"reply\":\"repeat\"}\n",
    "differs => HTTP/1.1 409 Conflict^~content-length: 59^~content-type: application/json^~^~{\"given\":\"wrong-answer\",\"kept\":\"correct\",\"reply\":\"differs\"}\n",
    "differs-timelimit => HTTP/1.1 409 Conflict^~content-length: 56^~content-type: application/json^~^~{\"given\":\"timelimit\",\"kept\":\"correct\",\"reply\":\"differs\"}\n",
    "no-other-host => HTTP/1.1 404 Not Found^~content-length: 31^~content-type: application/json^~^~{\"name\":\"h2\",\"reply\":\"no-host\"}\n",
    "no-jury => HTTP/1.1 404 Not Found^~content-length: 33^~content-type: application/json^~^~{\"name\":\"jury\",\"reply\":\"no-host\"}\n",
    "nothing => HTTP/1.1 200 OK^~content-length: 19^~content-type: application/json^~^~{\"reply\":\"nothing\"}\n",
    "is-job => HTTP/1.1 200 OK^~content-length: 228^~content-type: application/json^~^~{\"answer\":\"Nwo=\",\"check\":\"default\",\"flags\":{\"absolute\":null,\"case\":false,\"relative\":null,\"space\":false},\"image\":\"EwAAAA==\",\"input\":\"Nwo=\",\"instructions\":10000000,\"judging\":1,\"output\":8388608,\"pages\":16384,\"reply\":\"job\",\"test\":1}\n",
    "is-rejudged-job => HTTP/1.1 200 OK^~content-length: 228^~content-type: application/json^~^~{\"answer\":\"Nwo=\",\"check\":\"default\",\"flags\":{\"absolute\":null,\"case\":false,\"relative\":null,\"space\":false},\"image\":\"EwAAAA==\",\"input\":\"Nwo=\",\"instructions\":10000000,\"judging\":2,\"output\":8388608,\"pages\":16384,\"reply\":\"job\",\"test\":1}\n",
    "no-job => HTTP/1.1 404 Not Found^~content-length: 18^~content-type: application/json^~^~{\"reply\":\"no-job\"}\n",
    "no-judging => HTTP/1.1 404 Not Found^~content-length: 34^~content-type: application/json^~^~{\"judging\":2,\"reply\":\"no-judging\"}\n",
    "rejudged => HTTP/1.1 200 OK^~content-length: 51^~content-type: application/json^~^~{\"first\":2,\"last\":2,\"number\":1,\"reply\":\"rejudging\"}\n",
    "rejudged-handed => HTTP/1.1 200 OK^~content-length: 48^~content-type: application/json^~^~{\"judging\":2,\"reply\":\"task\",\"test\":1,\"until\":60}\n",
    "applied => HTTP/1.1 200 OK^~content-length: 31^~content-type: application/json^~^~{\"members\":1,\"reply\":\"applied\"}\n",
    "no-names => HTTP/1.1 200 OK^~content-length: 50^~content-type: application/json^~^~{\"problems\":[],\"reply\":\"contest\",\"submissions\":[]}\n",
    "public-pending => HTTP/1.1 200 OK^~content-length: 64^~content-type: application/json^~^~{\"reply\":\"public\",\"rows\":[{\"submission\":1,\"verdict\":\"pending\"}]}\n",
    "public-correct => HTTP/1.1 200 OK^~content-length: 64^~content-type: application/json^~^~{\"reply\":\"public\",\"rows\":[{\"submission\":1,\"verdict\":\"correct\"}]}\n",
    "public-wrong => HTTP/1.1 200 OK^~content-length: 69^~content-type: application/json^~^~{\"reply\":\"public\",\"rows\":[{\"submission\":1,\"verdict\":\"wrong-answer\"}]}\n",
    "bad-head => HTTP/1.1 400 Bad Request^~content-length: 20^~content-type: application/json^~^~{\"reply\":\"bad-head\"}\n",
);

/// This port of the machine itself, or any that is free, with the patience of a minute.
pub(crate) fn at_port(port: u16) -> Listening {
    Listening {
        address: IpAddr::V4(Ipv4Addr::LOCALHOST),
        port,
        patience: 60,
        until_input_ends: false,
    }
}

/// The text of a word, or `?` if it has none.
fn text_of(word: &str) -> &'static str {
    for line in TEXTS.lines() {
        if let Some((known, text)) = line.split_once(" => ") {
            if known == word {
                return text;
            }
        }
    }
    "?"
}

/// The bytes that a part of a row writes.
pub(crate) fn bytes_of(alloc: Global, text: &str) -> Result<Vec<u8>, AllocError> {
    let text = text.replace(alloc, '~', "\n")?;
    Ok(text.replace(alloc, '^', "\r")?.into_bytes())
}

/// The bytes that these words stand for, one behind the other.
pub(crate) fn said(alloc: Global, words: &str) -> Result<Vec<u8>, AllocError> {
    let mut bytes = Vec::new(alloc);
    for word in words.split_whitespace() {
        bytes.extend_from_slice(bytes_of(alloc, text_of(word))?.as_slice())?;
    }
    Ok(bytes)
}

/// How many bytes a sink of these tests holds.
pub(crate) const ROOM: usize = 2000;

/// A connection that says what these words stand for, and has room for the responses.
pub(crate) fn conn_of(alloc: Global, words: &str) -> Result<ReliableConn, AllocError>
    ensures { IfOk result IsReliableNew }
{
    let sink = ReliableSink::new(Vec::with_capacity(alloc, ROOM)?);
    Ok(Connection::new(ReliableSource::new(said(alloc, words)?), sink))
}

/// How many requests of a connection were answered, and how it ended.
pub(crate) fn end_told(alloc: Global, end: ConnEnd) -> Result<String, AllocError> {
    format!(in alloc; "{} {:?}", end.requests, end.how)
}

/// Compares bytes with those that are expected.
pub(crate) fn check_bytes(rt: &impl Abort, bytes: &[u8], expected: &[u8], name: &str) {
    assert_eq!(rt; bytes, expected, "{name}");
}

/// Compares how a connection ended, in words.
pub(crate) fn check_end(rt: &impl Abort, ended: &str, end: &str, name: &str) {
    assert_eq!(rt; ended, end, "{name}");
}
