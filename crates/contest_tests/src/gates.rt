//! Gates for tests of judging: where hosts die, wait for each other, or are written down.

ghost use Rattle.std.specs.Prelude.{true};

use judgehost::{Gate, Go, Point};
use std::sync::{Mutex, Wait};
use std::thread;

/// A point of a turn of a host.
pub type Moment = (u32, Point, u64);

/// Lets a host die at one moment, or none.
#[derive(Clone, Copy)]
pub struct DeathGate {
    pub death: Option<Moment>,
}

impl Gate for DeathGate {
    ghost may_answer = { λ gate host point turn go. true };

    fn pass(&self, host: u32, point: Point, turn: u64) -> Go {
        if self.death == Some((host, point, turn)) {
            Go::Die
        } else {
            Go::On
        }
    }
}

/// Lets every host go on, and writes down when it is asked.
#[derive(Drop)]
pub struct RecordingGate<'a, R: Wait> {
    pub rt: &'a R,
    pub moments: Mutex<Vec<Moment>>,
}

impl<'a, R: Wait> Gate for RecordingGate<'a, R> {
    ghost use Rattle.judgehost.specs.Gates.{is_on};

    ghost may_answer = { λ gate host point turn go. is_on go };

    fn pass(&self, host: u32, point: Point, turn: u64) -> Go {
        // A test whose list has no room fails, since a moment is missing.
        let _room = self.moments.lock(self.rt).push((host, point, turn));
        Go::On
    }
}

/// How often a gate looks whether another host has come.
pub const LOOKS: u64 = 10_000_000;

/// In how many turns hosts wait for each other.
pub const MEETINGS: u64 = 2;

/// What is known of two hosts that wait for each other: how many tasks each has claimed, as far as they wait.
#[derive(Drop)]
pub struct Meeting {
    pub one: u64,
    pub two: u64,
    pub gave_up: bool,
}

/// Holds hosts 1 and 2, each before its first posts, until the other has claimed as many tasks.
#[derive(Drop)]
pub struct MeetingGate<'a, R: Wait> {
    pub rt: &'a R,
    pub meeting: Mutex<Meeting>,
}

impl<'a, R: Wait> MeetingGate<'a, R> {
    /// No host has come yet.
    pub fn new(rt: &'a R) -> MeetingGate<'a, R> {
        let meeting = Mutex::new(Meeting {
            one: 0,
            two: 0,
            gave_up: false,
        });
        MeetingGate { rt, meeting }
    }

    fn come(&self, host: u32, turn: u64) {
        let mut meeting = self.meeting.lock(self.rt);
        if host == 1 {
            meeting.one = turn;
        } else {
            meeting.two = turn;
        }
    }

    fn has_met(&self, host: u32, turn: u64) -> bool {
        let meeting = self.meeting.lock(self.rt);
        if host == 1 {
            meeting.two >= turn
        } else {
            meeting.one >= turn
        }
    }

    fn wait_for_other(&self, host: u32, turn: u64) {
        for _ in 0..LOOKS {
            if self.has_met(host, turn) {
                return;
            }
            thread::yield_now();
        }
        self.meeting.lock(self.rt).gave_up = true;
    }
}

impl<'a, R: Wait> Gate for MeetingGate<'a, R> {
    ghost use Rattle.judgehost.specs.Gates.{is_on};

    ghost may_answer = { λ gate host point turn go. is_on go };

    fn pass(&self, host: u32, point: Point, turn: u64) -> Go {
        if turn <= MEETINGS {
            match point {
                Point::AfterClaim => self.come(host, turn),
                Point::BeforePost => self.wait_for_other(host, turn),
                Point::AfterPost => (),
            }
        }
        Go::On
    }
}

/// The same, but one host dies at this moment, and keeps the other waiting no more.
#[derive(Drop)]
pub struct LossGate<'a, R: Wait> {
    pub meeting: MeetingGate<'a, R>,
    pub death: Moment,
}

impl<'a, R: Wait> Gate for LossGate<'a, R> {
    ghost may_answer = { λ gate host point turn go. true };

    fn pass(&self, host: u32, point: Point, turn: u64) -> Go {
        if self.death == (host, point, turn) {
            self.meeting.come(host, MEETINGS);
            return Go::Die;
        }
        self.meeting.pass(host, point, turn)
    }
}

/// Lets hosts die, each at the first of its moments that the seed picks out.
#[derive(Clone, Copy)]
pub struct SeededGate {
    pub seed: u64,
}

impl Gate for SeededGate {
    ghost may_answer = { λ gate host point turn go. true };

    fn pass(&self, host: u32, point: Point, turn: u64) -> Go {
        let point = match point {
            Point::AfterClaim => 0,
            Point::BeforePost => 1,
            Point::AfterPost => 2,
        };
        let moment = self
            .seed
            .wrapping_mul(1_000_003)
            .wrapping_add(host as u64 * 101 + point)
            .wrapping_add(turn.wrapping_mul(7));
        let drawn = moment.wrapping_mul(6_364_136_223_846_793_005) >> 60;
        if drawn < 2 { Go::Die } else { Go::On }
    }
}
