ghost use Rattle.std.specs.Prelude.{◌≡◌, ℕ, None, ⊤};

use crate::talks::{check_bytes, check_end, conn_of, end_told, said};
use command_text::write_event;
use contest_page::ContestView;
use farm_api::{ConnEnd, Paths, Replier, put_look, serve_on};
use farm_io::{FixedClock, ReliableConn, Sink};
use farm_kinds::{Answer, Answers, Event, Kind, NoMemory, Reply, Text};
use http_door::ResponseFault;
use std::alloc::Global;
use std::process::Abort;
use std::test::Fail;
use wire_job::JobPart;

/// Finds that every result differs, that every judging is of submission 3, and has nothing else to say. What the public
/// sees is that submission 1 is pending. It has no cases, and the names of a contest.
#[derive(Drop)]
struct Differing {
    alloc: Global,
    contest: ContestView,
}

/// The events and looks that were asked, each with a bar behind it, and how many may follow.
#[derive(Drop)]
struct Asked {
    text: Vec<u8>,
    left: u64,
}

/// Writes an event and a bar behind it.
fn note(alloc: Global, text: &mut Vec<u8>, event: &Event) -> Result<(), NoMemory> {
    let line = write_event(alloc, event)?;
    text.extend_from_slice(line.as_slice())?;
    text.extend_from_slice(b"|")?;
    Ok(())
}

impl Replier for Differing {
    type State = Asked;

    ghost suits = { λ replier asked. ⊤ };

    ghost steps = { λ old entered new. ⊤ };

    ghost left = { λ asked. asked.left };

    ghost gives = { λ replier. record { case = λ submission test case. case ≡ None; contest = replier.contest } };

    fn step(&self, state: &mut Asked, event: &Event) -> Reply {
        state.left -= 1;
        let noted = note(self.alloc, &mut state.text, event);
        match event {
            _ if noted.is_err() => Reply::NoMemory,
            Event::Result { kind, .. } => Reply::Differs {
                kept: Kind::Correct,
                given: *kind,
            },
            Event::Owner { .. } => Reply::Owned { submission: 3 },
            _ => Reply::Nothing,
        }
    }

    fn look(&self, alloc: Global, state: &mut Asked) -> Reply {
        state.left -= 1;
        let mut rows = Answers::new(alloc);
        let noted = state.text.extend_from_slice(b"look|");
        if noted.is_err() || rows.push(Answer::Pending).is_err() {
            return Reply::NoMemory;
        }
        Reply::Board { rows }
    }

    fn show<K: Sink>(
        &self,
        alloc: Global,
        state: &mut Asked,
        closing: bool,
        sink: &mut K,
    ) -> Result<(), ResponseFault> {
        let look = self.look(alloc, state);
        put_look(alloc, sink, closing, &look)
    }

    fn job(
        &self,
        _alloc: Global,
        _part: JobPart,
        _submission: u32,
        _judging: u32,
        _test: u32,
    ) -> Result<Option<Text>, NoMemory> {
        Ok(None)
    }

    fn contest(&self) -> &ContestView {
        &self.contest
    }
}

/// What comes on a connection, how many requests are answered and how it ends, the events, and the responses, a line
/// each. Requests and responses stand there by words.
const TALKS: &str = concat!(
    "host fetch => 2 End => host h1|tick 7|claim h1| => nothing nothing\n",
    "last-timelimit host => 1 Closed => result h1 1 1 timelimit|down h1| => differs-timelimit\n",
    "rejudged-job => 1 End => owner 2| => no-job\n",
    "public host => 2 End => look|host h1| => public-pending nothing\n",
    "contest host => 2 End => host h1| => no-names nothing\n",
    "host cut => 1 Cut => host h1| => nothing\n",
    "host no-head => 1 BadRequest => host h1| => nothing bad-head\n",
    " => 0 End =>  => \n",
);

/// Serves a connection at moment 7, and gives how it ended and the events that were asked.
fn serve(
    alloc: Global,
    paths: &Paths,
    replier: &Differing,
    conn: &mut ReliableConn,
) -> (ConnEnd, Asked) {
    let mut state = Asked {
        text: Vec::new(alloc),
        left: 1 << 42,
    };
    let clock = FixedClock::new(7);
    let end = serve_on(alloc, paths, replier, &mut state, &clock, conn);
    (end, state)
}

/// Compares how a connection ends, the events and the responses.
fn check_talk(
    rt: &impl Abort,
    alloc: Global,
    paths: &Paths,
    replier: &Differing,
    talk: &str,
) -> Result<(), Fail> {
    let (sent, rest) = talk.split_once(" => ").unwrap_or((talk, ""));
    let (end, rest) = rest.split_once(" => ").unwrap_or((rest, ""));
    let (asked, responses) = rest.split_once(" => ").unwrap_or((rest, ""));
    let responses = said(alloc, responses)?;
    let mut conn = conn_of(alloc, sent)?;
    let (ended, state) = serve(alloc, paths, replier, &mut conn);
    let ended = end_told(alloc, ended)?;
    check_end(rt, ended.as_str(), end, sent);
    check_bytes(rt, state.text.as_slice(), asked.as_bytes(), sent);
    check_bytes(rt, conn.sink.bytes(), responses.as_slice(), sent);
    Ok(())
}

#[test]
fn connections_are_served(rt: HostRuntime) -> Result<(), Fail> {
    let paths = Paths::new(rt.alloc())?;
    let contest = ContestView::new(rt.alloc(), Vec::new(rt.alloc()), Vec::new(rt.alloc()))?;
    let replier = Differing {
        alloc: rt.alloc(),
        contest,
    };
    for talk in TALKS.lines() {
        check_talk(&rt, rt.alloc(), &paths, &replier, talk)?;
    }
    Ok(())
}
