use crate::names::name;
use crate::readers::{Reader, check_rows};
use crate::rows::{bytes_of, check_written};
use farm_kinds::{
    Answer, Answers, Few, How, Kind, MatrixRow, MatrixRows, Name, NoMemory, Reply, Task, Text,
    Verdict,
};
use std::alloc::{AllocError, Global};
use std::process::Abort;
use wire_json::{
    Body, BodyFault, Route, fault_json, read_body, worked_bodies, worked_faults, worked_replies,
    worked_rows, write_json,
};

#[test]
fn computes_rows() {
    worked_bodies();
    worked_faults();
    worked_replies();
    worked_rows();
}

/// Appends a blank and a word.
fn push_word(text: &mut Vec<u8>, word: &[u8]) -> Result<(), AllocError> {
    text.extend_from_slice(b" ")?;
    text.extend_from_slice(word)
}

/// Appends the name of a host, and a task.
fn push_task(
    alloc: Global,
    text: &mut Vec<u8>,
    hostname: &Name,
    judging: u32,
    test: u32,
) -> Result<(), AllocError> {
    push_word(text, hostname.as_bytes())?;
    push_word(text, judging.to_string(alloc)?.as_bytes())?;
    push_word(text, test.to_string(alloc)?.as_bytes())
}

/// Appends how many tasks a host asks for.
fn push_max(alloc: Global, text: &mut Vec<u8>, max: Option<u8>) -> Result<(), AllocError> {
    push_word(text, format!(in alloc; "{max:?}")?.as_bytes())
}

/// Appends the numbers of submissions.
fn push_list(alloc: Global, text: &mut Vec<u8>, list: &[u32]) -> Result<(), AllocError> {
    push_word(text, format!(in alloc; "{list:?}")?.as_bytes())
}

/// Appends what stands in a body.
fn push_fields(alloc: Global, text: &mut Vec<u8>, body: &Body) -> Result<(), AllocError> {
    match body {
        Body::Empty => Ok(()),
        Body::Host { hostname } => push_word(text, hostname.as_bytes()),
        Body::Fetch { hostname, max } => {
            push_word(text, hostname.as_bytes())?;
            push_max(alloc, text, *max)
        }
        Body::Run {
            hostname,
            judging,
            test,
            kind,
        } => {
            push_task(alloc, text, hostname, *judging, *test)?;
            push_word(text, kind.name().as_bytes())
        }
        Body::Held {
            hostname,
            judging,
            test,
        } => push_task(alloc, text, hostname, *judging, *test),
        Body::Actor { who } => push_word(text, who.as_bytes()),
        Body::Rejudge { submissions, who } => {
            push_list(alloc, text, submissions.as_slice())?;
            push_word(text, who.as_bytes())
        }
    }
}

/// The word of a body.
fn word_of(body: &Body) -> &'static [u8] {
    match body {
        Body::Empty => b"empty",
        Body::Host { .. } => b"host",
        Body::Fetch { .. } => b"fetch",
        Body::Run { .. } => b"run",
        Body::Held { .. } => b"held",
        Body::Actor { .. } => b"actor",
        Body::Rejudge { .. } => b"rejudge",
    }
}

/// A word and what a body says, in text.
fn body_text(alloc: Global, body: &Body) -> Result<Vec<u8>, AllocError> {
    let mut text = word_of(body).to_vec(alloc)?;
    push_fields(alloc, &mut text, body)?;
    Ok(text)
}

/// What a body says, in text, or what it is answered.
fn said(alloc: Global, route: Route, bytes: &[u8]) -> Result<Vec<u8>, NoMemory> {
    match read_body(alloc, route, bytes) {
        Ok(body) => Ok(body_text(alloc, &body)?),
        Err(BodyFault::NoMemory) => Err(NoMemory),
        Err(fault) => Ok(fault_json(alloc, &fault)?.into_vec()),
    }
}

/// The route of a word.
fn route_of(word: &str) -> Option<Route> {
    Some(match word {
        "hosts" => Route::Hosts,
        "down" => Route::Down,
        "fetch-work" => Route::FetchWork,
        "add-run" => Route::AddRun,
        "renew" => Route::Renew,
        "verify" => Route::Verify(1),
        "ask" => Route::Ask(1),
        "apply" => Route::Apply(1),
        "cancel" => Route::Cancel(1),
        "rejudgings" => Route::Rejudgings,
        "judgement" => Route::Judgement(1),
        "submission" => Route::Submission(1),
        "board" => Route::Board,
        "audit" => Route::Audit,
        "rejudging" => Route::Rejudging(1),
        _ => return None,
    })
}

/// What the body behind the word of a route and a bar says, in text, or what it is answered.
pub(crate) fn body_told(alloc: Global, part: &str) -> Result<Vec<u8>, NoMemory> {
    let (word, body) = part.split_once('|').unwrap_or((part, ""));
    let Some(route) = route_of(word) else {
        return Ok(b"no route".to_vec(alloc)?);
    };
    said(alloc, route, bytes_of(alloc, body)?.as_slice())
}

/// Bodies, each behind the word of its route and a bar, and what they say or are answered. In the last ones stands beside
/// the name an array of 127 and of 128 levels, the object counted; as many values as may stand there, and one more; and a
/// string as long as it may be, and one longer, also of escapes.
const BODIES: &str = concat!(
    "hosts|{\"hostname\":\"h1\"} => host h1\n",
    "hosts|  => {\"reply\":\"bad-body\",\"why\":\"not-json\"}\n",
    "hosts|[\"hostname\"] => {\"reply\":\"bad-body\",\"why\":\"not-json\"}\n",
    "hosts|{\"hostname\":\"h1\" => {\"reply\":\"bad-body\",\"why\":\"not-json\"}\n",
    "hosts|{\"hostname\":\"h1\"}{} => {\"reply\":\"bad-body\",\"why\":\"not-json\"}\n",
    "hosts|{\"hostname\":\"h1\",\"x\":\"$\"} => {\"reply\":\"bad-body\",\"why\":\"not-json\"}\n",
    "hosts|{\"hostname\":\"h1\",\"x\":1e999} => {\"reply\":\"bad-body\",\"why\":\"not-json\"}\n",
    "hosts| => {\"reply\":\"bad-body\",\"why\":\"missing hostname\"}\n",
    "hosts|{\"hostname\":null} => {\"reply\":\"bad-body\",\"why\":\"bad hostname\"}\n",
    "hosts|{\"hostname\":\"h.1\"} => {\"reply\":\"bad-body\",\"why\":\"bad hostname\"}\n",
    "down| {\"x\":[{}],\"hostname\":\"h1\"}~ => host h1\n",
    "fetch-work|{\"hostname\":\"h1\"} => fetch h1 None\n",
    "fetch-work|{\"hostname\":\"h1\",\"max\":16} => fetch h1 Some(16)\n",
    "fetch-work|{\"max\":0} => {\"reply\":\"bad-body\",\"why\":\"missing hostname\"}\n",
    "fetch-work|{\"hostname\":\"h1\",\"max\":0} => {\"reply\":\"bad-body\",\"why\":\"bad max\"}\n",
    "fetch-work|{\"hostname\":\"h1\",\"max\":17} => {\"reply\":\"bad-body\",\"why\":\"bad max\"}\n",
    "fetch-work|{\"hostname\":\"h1\",\"max\":null} => {\"reply\":\"bad-body\",\"why\":\"bad max\"}\n",
    "add-run|{\"hostname\":\"h1\",\"judging\":1,\"test\":1,\"result\":\"correct\"} => run h1 1 1 correct\n",
    "add-run|{\"hostname\":\"h1\",\"judging\":1,\"test\":1,\"result\":\"Correct\"} => {\"reply\":\"bad-body\",\"why\":\"bad result\"}\n",
    "renew|{\"hostname\":\"h1\",\"judging\":4294967295,\"test\":0} => held h1 4294967295 0\n",
    "renew|{\"hostname\":\"h1\",\"judging\":60.0} => {\"reply\":\"bad-body\",\"why\":\"bad judging\"}\n",
    "renew|{\"hostname\":\"h1\",\"judging\":6e1} => {\"reply\":\"bad-body\",\"why\":\"bad judging\"}\n",
    "renew|{\"hostname\":\"h1\",\"judging\":4294967296} => {\"reply\":\"bad-body\",\"why\":\"bad judging\"}\n",
    "renew|{\"hostname\":\"h1\",\"judging\":1,\"Test\":1} => {\"reply\":\"bad-body\",\"why\":\"missing test\"}\n",
    "verify| => actor jury\n",
    "verify|{\"who\":null} => {\"reply\":\"bad-body\",\"why\":\"bad who\"}\n",
    "ask|{} => actor jury\n",
    "apply|{\"who\":\"eve\"} => actor eve\n",
    "cancel|{\"who\":\"a\",\"who\":\"b\"} => actor b\n",
    "rejudgings|{\"submissions\":[]} => rejudge [] jury\n",
    "rejudgings|{\"submissions\":[2,1],\"who\":\"eve\"} => rejudge [2, 1] eve\n",
    "rejudgings|{\"who\":null,\"submissions\":[1,\"2\"]} => {\"reply\":\"bad-body\",\"why\":\"bad submissions\"}\n",
    "rejudgings|{\"submissions\":1} => {\"reply\":\"bad-body\",\"why\":\"bad submissions\"}\n",
    "judgement|{ => empty\n",
    "submission|$ => empty\n",
    "board| => empty\n",
    "audit|[] => empty\n",
    "rejudging|{} => empty\n",
    "hosts|{\"hostname\":\"h1\",\"deep\":«[*126»«]*126»} => host h1\n",
    "hosts|{\"hostname\":\"h1\",\"deep\":«[*127»«]*127»} => {\"reply\":\"bad-body\",\"why\":\"not-json\"}\n",
    "hosts|{\"hostname\":\"h1\",\"x\":[1«,1*131069»]} => host h1\n",
    "hosts|{\"hostname\":\"h1\",\"x\":[1«,1*131070»]} => {\"reply\":\"bad-body\",\"why\":\"too-many-values\"}\n",
    "hosts|{\"hostname\":\"h1\",\"x\":\"«a*1048561»\"} => host h1\n",
    "hosts|{\"hostname\":\"h1\",\"x\":\"«a*1048562»\"} => {\"reply\":\"bad-body\",\"why\":\"too-long-strings\"}\n",
    "hosts|{\"hostname\":\"h1\",\"x\":\"«\\\"*524280»\"} => host h1\n",
    "hosts|{\"hostname\":\"h1\",\"x\":\"«\\\"*524281»\"} => {\"reply\":\"bad-body\",\"why\":\"too-long-strings\"}\n",
);

#[test]
fn reads_bodies(rt: HostRuntime) {
    check_rows(&rt, BODIES, Reader::Body);
}

/// The text of a reply.
fn json(alloc: Global, reply: Reply) -> Result<Text, NoMemory> {
    match reply {
        Reply::NoMemory => Err(NoMemory),
        _ => write_json(alloc, &reply),
    }
}

/// Checks that this text is written for a reply.
fn check_reply<R: Abort + AllocGlobal>(rt: &R, reply: Reply, want: &str) {
    check_written(rt, json(rt.alloc(), reply), want);
}

const RIGHT: Answer = Answer::Final(Verdict::Tests(Kind::Correct));

/// The text of a board of two submissions.
fn board_json(alloc: Global) -> Result<Text, NoMemory> {
    let mut rows = Answers::new(alloc);
    rows.push(RIGHT)?;
    rows.push(Answer::Pending)?;
    json(alloc, Reply::Board { rows })
}

/// The text of what a rejudging of two submissions has changed.
fn matrix_json(alloc: Global) -> Result<Text, NoMemory> {
    let mut rows = MatrixRows::new(alloc);
    rows.push(MatrixRow {
        old: Answer::Final(Verdict::Tests(Kind::WrongAnswer)),
        new: RIGHT,
        count: 2,
    })?;
    json(alloc, Reply::Matrix { rows, members: 2 })
}

#[test]
fn writes_replies(rt: HostRuntime) {
    check_reply(
        &rt,
        Reply::Host { name: name(b"h1") },
        "{\"host\":\"h1\",\"reply\":\"host\"}",
    );
    check_reply(
        &rt,
        Reply::Handed {
            task: Task {
                judging: 1,
                test: 1,
            },
            until: 60,
        },
        "{\"judging\":1,\"reply\":\"task\",\"test\":1,\"until\":60}",
    );
    check_reply(
        &rt,
        Reply::Batch {
            judging: 1,
            tests: Few::of(2),
            until: 60,
        },
        "{\"judging\":1,\"reply\":\"batch\",\"tests\":[2],\"until\":60}",
    );
    check_reply(
        &rt,
        Reply::Owned { submission: 1 },
        "{\"reply\":\"owner\",\"submission\":1}",
    );
    check_reply(&rt, Reply::Counted, "{\"reply\":\"counted\"}");
    check_reply(
        &rt,
        Reply::Shown(RIGHT),
        "{\"reply\":\"final\",\"verdict\":\"correct\"}",
    );
    check_reply(
        &rt,
        Reply::Differs {
            kept: Kind::Correct,
            given: Kind::WrongAnswer,
        },
        "{\"given\":\"wrong-answer\",\"kept\":\"correct\",\"reply\":\"differs\"}",
    );
    check_reply(
        &rt,
        Reply::NoHost { name: name(b"h2") },
        "{\"name\":\"h2\",\"reply\":\"no-host\"}",
    );
    check_reply(
        &rt,
        Reply::Closed { how: How::Applied },
        "{\"how\":\"applied\",\"reply\":\"closed\"}",
    );
    check_reply(
        &rt,
        Reply::Already { judging: 1 },
        "{\"judging\":1,\"reply\":\"already\"}",
    );
    check_reply(
        &rt,
        Reply::Audit {
            count: 1,
            head: [10; 32],
        },
        "{\"count\":1,\"head\":\"0a0a0a0a0a0a0a0a0a0a0a0a0a0a0a0a0a0a0a0a0a0a0a0a0a0a0a0a0a0a0a0a\",\"reply\":\"audit\"}",
    );
    check_written(
        &rt,
        board_json(rt.alloc()),
        "{\"reply\":\"board\",\"rows\":[{\"submission\":1,\"verdict\":\"correct\"},{\"submission\":2,\"verdict\":\"pending\"}]}",
    );
    check_written(
        &rt,
        matrix_json(rt.alloc()),
        "{\"members\":2,\"reply\":\"matrix\",\"rows\":[{\"count\":2,\"new\":\"correct\",\"old\":\"wrong-answer\"}]}",
    );
}
