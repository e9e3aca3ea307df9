ghost use Rattle.std.specs.Prelude.{◌<◌, None, false, refl};
ghost use Rattle.farm_io.specs.Beside.{side};

use crate::contest_server_tests::{check_served, one_roster};
use crate::talks::{at_port, said};
use contest_folder::Roster;
use contest_server::{ServeEnd, serve_contest};
use farm_io::{
    Accepted, Door, DoorErr, FixedClock, Listening, Peer, PutEnd, ReliableSink, ReliableSource,
    Sink, Source, Taken,
};
use std::alloc::Global;
use std::process::Abort;
use std::sync::{Mutex, Wait};
use std::test::Fail;
use std::thread;
use std::thread::Threads;

/// How often it is looked whether another connection has an answer.
const LOOKS: u64 = 10_000_000;

/// Which of two connections have an answer.
#[derive(Drop)]
struct Answers {
    first: bool,
    second: bool,
    gave_up: bool,
}

/// Says that a connection has an answer.
fn note<R: Wait>(rt: &R, answers: &Mutex<Answers>, first: bool) {
    let mut seen = answers.lock(rt);
    if first {
        seen.first = true;
    } else {
        seen.second = true;
    }
}

/// Whether a connection has an answer.
fn has_answer<R: Wait>(rt: &R, answers: &Mutex<Answers>, first: bool) -> bool {
    let seen = answers.lock(rt);
    if first {
        return seen.first;
    }
    seen.second
}

/// Waits until a connection has an answer, for a while.
fn await_answer<R: Wait>(rt: &R, answers: &Mutex<Answers>, first: bool) {
    for _ in 0..LOOKS {
        if has_answer(rt, answers, first) {
            return;
        }
        thread::yield_now();
    }
    answers.lock(rt).gave_up = true;
}

/// A connection with one request. The first one ends only once the second one has an answer.
#[derive(Drop)]
struct MeetingConn<'a, R: Wait> {
    rt: &'a R,
    answers: &'a Mutex<Answers>,
    source: ReliableSource,
    first: bool,
    takes: u64,
}

impl<'a, R: Wait> Source for MeetingConn<'a, R> {
    ghost left = { λ _. None };

    ghost faults = { λ _. 0 };

    ghost beside = { λ _. side None 0 };

    fn take(&mut self, room: &mut [u8]) -> Taken {
        if self.first && self.takes == 1 {
            await_answer(self.rt, self.answers, false);
        }
        self.takes = self.takes.saturating_add(1);
        self.source.take(room)
    }
}

impl<'a, R: Wait> Sink for MeetingConn<'a, R> {
    ghost held = { λ _. None };

    ghost faults = { λ _. 0 };

    ghost beside = { λ _. side None 0 };

    fn put(&mut self, _piece: &[u8]) -> PutEnd {
        note(self.rt, self.answers, self.first);
        PutEnd::Done
    }
}

impl<'a, R: Wait> Peer for MeetingConn<'a, R> {
    ghost asks = { false };

    fn is_asked_to_close(&self) -> bool {
        false
    }

    fn finish(&mut self, _lingers: bool) {}
}

/// Lets two connections in, the second one once the first one has an answer.
#[derive(Drop)]
struct MeetingDoor<'a, R: Wait> {
    rt: &'a R,
    alloc: Global,
    answers: &'a Mutex<Answers>,
    accepted: u64,
    returned: u64,
    listens: Option<Listening>,
}

impl<'a, R: Wait + Sync> Door for MeetingDoor<'a, R> {
    type Conn = MeetingConn<'a, R>;

    ghost state = { λ d. record { coming = None; back = None; accepted = d.accepted; returned = d.returned; listens = d.listens } };

    ghost faults = { λ _. 0 };

    fn listen(&mut self, at: Listening) -> Result<(), DoorErr> {
        self.listens = Some(at);
        Ok(())
    }

    fn await_next(&mut self) {}

    fn ask_to_close(&mut self, _before: u64) {}

    fn accept(&mut self) -> Accepted<MeetingConn<'a, R>> {
        if self.accepted >= 2 {
            return Accepted::End;
        }
        if self.accepted == 1 {
            await_answer(self.rt, self.answers, true);
        }
        let Ok(bytes) = said(self.alloc, "host") else {
            return Accepted::End;
        };
        self.accepted += 1;
        Accepted::Conn(MeetingConn {
            rt: self.rt,
            answers: self.answers,
            source: ReliableSource::new(bytes),
            first: self.accepted == 1,
            takes: 0,
        })
    }

    fn give_back(&mut self, conn: MeetingConn<'a, R>) {
        drop(conn);
        self.returned += 1;
    }

    ghost sides = { λ _. (refl, refl) };
}

/// What is written of two connections that wait for each other, and whether one of them gave up.
fn serve_meeting<R: Threads + Wait + Sync>(
    rt: &R,
    alloc: Global,
    roster: &Roster,
    out: &mut ReliableSink,
) -> (ServeEnd, bool) {
    let answers = Mutex::new(Answers {
        first: false,
        second: false,
        gave_up: false,
    });
    let mut door = MeetingDoor {
        rt,
        alloc,
        answers: &answers,
        accepted: 0,
        returned: 0,
        listens: Some(at_port(80)),
    };
    let clock = FixedClock::new(0);
    let end = serve_contest(rt, alloc, roster, 2, 2, &clock, &mut door, out);
    let gave_up = answers.lock(rt).gave_up;
    (end, gave_up)
}

/// Checks that no connection gave up.
fn check_met(rt: &impl Abort, gave_up: bool) {
    assert!(rt; !gave_up);
}

#[test]
fn connections_are_served_at_the_same_time(rt: HostRuntime) -> Result<(), Fail> {
    let alloc = rt.alloc();
    let mut out = ReliableSink::new(Vec::with_capacity(alloc, 200)?);
    let roster = one_roster(alloc)?;
    let (end, gave_up) = serve_meeting(&rt, alloc, &roster, &mut out);
    let text = b"conn 1 requests 1 end\nconn 2 requests 1 end\n1 pending\nboard 1\n";
    check_served(&rt, end, ServeEnd::Done, out.bytes(), text, "");
    check_met(&rt, gave_up);
    Ok(())
}
