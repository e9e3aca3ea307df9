ghost use Rattle.std.specs.Prelude.{◌≡◌, ◌≢◌, IsUtf8, IfOk};

use crate::talks::{ROOM, bytes_of, check_bytes, said};
use command_text::write_event;
use farm_api::{Asked, Paths, RequestFault, answer_fault, answer_reply, read_request};
use farm_io::ReliableSink;
use farm_kinds::{Kind, Name, NoMemory, Reply, Task, Text};
use http_door::Head;
use std::alloc::{AllocError, Global};
use std::process::Abort;
use std::test::Fail;
use wire_job::JobPart;
use wire_json::BodyFault;

/// The head of a request.
fn head(alloc: Global, method: &str, target: &str) -> Result<Head, AllocError>
    ensures { IfOk result (λ h. IsUtf8 h.target) }
{
    Ok(Head {
        method: Text::from_vec(method.as_bytes().to_vec(alloc)?),
        target: Text::from_vec(target.as_bytes().to_vec(alloc)?),
        close: false,
    })
}

/// What a request asks: the line of its event, behind the word `tick` where time goes on first; `job`, or `rest` where its
/// image is not asked for, and the numbers of a judging and a test; `public`, `page` or `contest`; or why it asks nothing.
fn shown(alloc: Global, asked: &Asked) -> Result<Text, NoMemory>
    requires { asked.now ≢ Asked.Refused (RequestFault.BadBody BodyFault.NoMemory) }
{
    match asked {
        Asked::Event { ticks, event } => {
            let mut shown = Vec::new(alloc);
            if *ticks {
                shown.extend_from_slice(b"tick ")?;
            }
            shown.extend_from_slice(write_event(alloc, event)?.as_slice())?;
            Ok(Text::from_vec(shown))
        }
        Asked::Job {
            part,
            judging,
            test,
        } => {
            let part = match part {
                JobPart::Whole => "job",
                JobPart::Rest => "rest",
            };
            let shown = format!(in alloc; "{part} {judging} {test}")?;
            Ok(Text::from_vec(shown.into_bytes()))
        }
        Asked::Public => Ok(Text::from_vec(Vec::from_slice(alloc, b"public")?)),
        Asked::Page => Ok(Text::from_vec(Vec::from_slice(alloc, b"page")?)),
        Asked::Contest => Ok(Text::from_vec(Vec::from_slice(alloc, b"contest")?)),
        Asked::Refused(fault) => {
            let mut sink = ReliableSink::new(Vec::with_capacity(alloc, 1000)?);
            let _end = answer_fault(alloc, &mut sink, false, fault);
            Ok(Text::from_vec(Vec::from_slice(alloc, sink.bytes())?))
        }
    }
}

/// What a request with this method, target and body asks, as `shown` gives it.
fn asked(
    alloc: Global,
    paths: &Paths,
    method: &str,
    target: &str,
    body: &str,
) -> Result<Text, NoMemory> {
    let head = head(alloc, method, target)?;
    let asked = read_request(alloc, paths, &head, body.as_bytes())?;
    shown(alloc, &asked)
}

/// Requests, and what they ask, a line each: the method and the target, and behind `|` the body.
const ASKED: &str = concat!(
    "POST /judgehosts|{\"hostname\":\"h1\"} => host h1\n",
    "POST /judgehosts/fetch-work|{\"hostname\":\"h1\"} => tick claim h1\n",
    "POST /judgehosts/fetch-work|{\"hostname\":\"h1\",\"max\":16} => tick fetch h1 16\n",
    "POST /judgehosts/add-judging-run|{\"hostname\":\"h1\",\"judging\":1,\"test\":2,\"result\":\"correct\"} => result h1 1 2 correct\n",
    "POST /judgehosts/renew|{\"test\":2,\"judging\":1,\"hostname\":\"h1\"} => tick renew h1 1 2\n",
    "POST /judgehosts/down|{\"hostname\":\"h1\"} => down h1\n",
    "GET /judgehosts/job/12/3| => job 12 3\n",
    "GET /judgehosts/job/4294967295/4294967295?x| => job 4294967295 4294967295\n",
    "GET /judgehosts/job/12/3/rest?image| => rest 12 3\n",
    "GET /judgements/12|{ => show 12\n",
    "GET /judgements/12?strict=true| => show 12\n",
    "POST /judgements/12/verify| => verify 12\n",
    "POST /judgements/12/verify|{\"who\":\"eve\"} => @eve verify 12\n",
    "GET /judgements/12/submission| => owner 12\n",
    "POST /judgements/12/ask|{\"who\":\"eve\"} => @eve ask 12\n",
    "GET /board| => board\n",
    "GET /public?again|{ => public\n",
    "GET /| => page\n",
    "GET /contest| => contest\n",
    "GET /audit| => audit\n",
    "POST /rejudgings|{\"submissions\":[3,1]} => rejudge 3,1\n",
    "GET /rejudgings/4| => matrix 4\n",
    "POST /rejudgings/4/apply|{} => apply 4\n",
    "POST /rejudgings/4/cancel| => cancel 4\n",
);

/// Requests that ask nothing, and the responses.
const REFUSED: &str = concat!(
    "GET /index.html| => HTTP/1.1 404 Not Found^~content-length: 20^~content-type: application/json^~^~{\"reply\":\"no-route\"}\n",
    "GET /board/| => HTTP/1.1 404 Not Found^~content-length: 20^~content-type: application/json^~^~{\"reply\":\"no-route\"}\n",
    "GET /judgements/012| => HTTP/1.1 404 Not Found^~content-length: 20^~content-type: application/json^~^~{\"reply\":\"no-route\"}\n",
    "GET /judgements/4294967296| => HTTP/1.1 404 Not Found^~content-length: 20^~content-type: application/json^~^~{\"reply\":\"no-route\"}\n",
    "PUT /judgements/x/verify| => HTTP/1.1 404 Not Found^~content-length: 20^~content-type: application/json^~^~{\"reply\":\"no-route\"}\n",
    "GET /judgehosts/job/12| => HTTP/1.1 404 Not Found^~content-length: 20^~content-type: application/json^~^~{\"reply\":\"no-route\"}\n",
    "GET /judgehosts/job/12/x| => HTTP/1.1 404 Not Found^~content-length: 20^~content-type: application/json^~^~{\"reply\":\"no-route\"}\n",
    "GET /judgehosts/job/12/3/image| => HTTP/1.1 404 Not Found^~content-length: 20^~content-type: application/json^~^~{\"reply\":\"no-route\"}\n",
    "POST /judgehosts/job/12/3/rest| => HTTP/1.1 405 Method Not Allowed^~content-length: 21^~content-type: application/json^~^~{\"reply\":\"no-method\"}\n",
    "POST /judgehosts/job/12/3| => HTTP/1.1 405 Method Not Allowed^~content-length: 21^~content-type: application/json^~^~{\"reply\":\"no-method\"}\n",
    "POST /board| => HTTP/1.1 405 Method Not Allowed^~content-length: 21^~content-type: application/json^~^~{\"reply\":\"no-method\"}\n",
    "POST /public| => HTTP/1.1 405 Method Not Allowed^~content-length: 21^~content-type: application/json^~^~{\"reply\":\"no-method\"}\n",
    "get /board| => HTTP/1.1 405 Method Not Allowed^~content-length: 21^~content-type: application/json^~^~{\"reply\":\"no-method\"}\n",
    "POST /judgehosts|[] => HTTP/1.1 400 Bad Request^~content-length: 37^~content-type: application/json^~^~{\"reply\":\"bad-body\",\"why\":\"not-json\"}\n",
    "POST /judgehosts/down| => HTTP/1.1 400 Bad Request^~content-length: 45^~content-type: application/json^~^~{\"reply\":\"bad-body\",\"why\":\"missing hostname\"}\n",
);

/// Compares what a request asks.
fn check_request(rt: &impl Abort, alloc: Global, paths: &Paths, row: &str) -> Result<(), Fail> {
    let (request, expected) = row.split_once(" => ").unwrap_or((row, ""));
    let (line, body) = request.split_once('|').unwrap_or((request, ""));
    let (method, target) = line.split_once(' ').unwrap_or((line, ""));
    let expected = bytes_of(alloc, expected)?;
    let shown = asked(alloc, paths, method, target, body)?;
    check_bytes(rt, shown.as_slice(), expected.as_slice(), line);
    Ok(())
}

/// Compares what the requests of these rows ask.
fn check_requests(rt: &impl Abort, alloc: Global, rows: &str) -> Result<(), Fail> {
    let paths = Paths::new(alloc)?;
    for row in rows.lines() {
        check_request(rt, alloc, &paths, row)?;
    }
    Ok(())
}

#[test]
fn requests_ask_for_events(rt: HostRuntime) -> Result<(), Fail> {
    check_requests(&rt, rt.alloc(), ASKED)
}

#[test]
fn other_requests_are_refused(rt: HostRuntime) -> Result<(), Fail> {
    check_requests(&rt, rt.alloc(), REFUSED)
}

/// Compares the response to a reply, which stands by a word; behind it the server ends the connection or does not.
fn check_reply(
    rt: &impl Abort,
    alloc: Global,
    closing: bool,
    reply: &Reply,
    response: &str,
) -> Result<(), Fail>
    requires { reply.now ≢ Reply.NoMemory }
{
    let expected = said(alloc, response)?;
    let mut sink = ReliableSink::new(Vec::with_capacity(alloc, ROOM)?);
    let _end = answer_reply(alloc, &mut sink, closing, reply);
    check_bytes(rt, sink.bytes(), expected.as_slice(), response);
    Ok(())
}

#[test]
fn replies_have_responses(rt: HostRuntime) -> Result<(), Fail> {
    let task = Task {
        judging: 1,
        test: 1,
    };
    let handed = Reply::Handed { task, until: 60 };
    check_reply(&rt, rt.alloc(), false, &handed, "handed")?;
    check_reply(&rt, rt.alloc(), false, &Reply::Counted, "counted")?;
    check_reply(&rt, rt.alloc(), true, &Reply::Counted, "counted-last")?;
    let differs = Reply::Differs {
        kept: Kind::Correct,
        given: Kind::WrongAnswer,
    };
    check_reply(&rt, rt.alloc(), false, &differs, "differs")?;
    let none = Reply::NoHost { name: Name::jury() };
    check_reply(&rt, rt.alloc(), false, &none, "no-jury")
}
