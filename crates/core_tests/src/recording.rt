//! A bench in memory and a gate that write down what a host does.

ghost use Rattle.std.specs.Prelude.{◌≡◌, [], ◌+◌, ◌≤◌, ◌^◌, None, true, unwrap_or, ⊤};
ghost use Rattle.std.specs.Option.{option_map};
ghost use Rattle.default_validator.specs.Accepts.{wide_token_of};
ghost use Rattle.case_run.specs.Images.{is_image};
ghost use Rattle.judgehost.specs.Benches.{heard_at_claim};

use case_run::{Case, Check};
use default_validator::Flags;
use farm_kinds::{Kind, Limits, Reply, Task};
use judgehost::{Bench, BenchFault, Claimed, Done, Gate, Go, Point};
use std::cell::RefCell;

/// What each case may use.
const LIMITS: Limits = Limits {
    instructions: 9,
    pages: 1,
    output: 0,
};

/// What a host does.
#[derive(Clone, Copy, PartialEq, Eq)]
pub enum Step {
    /// It claims a task.
    Claim,
    /// It asks its gate at this point, as this host and in this turn.
    Pass(u32, Point, u64),
    /// It posts this kind for this task.
    Post(Task, Kind),
}

pub type Steps = RefCell<Vec<Step>>;

/// Writes a step down. A test whose steps have no room fails, since some are missing.
fn write_down(steps: &Steps, step: Step) {
    if let Ok(mut steps) = steps.try_borrow_mut() {
        let _room = steps.push(step);
    }
}

/// Which call is refused, counted from 1, and why.
pub type Refusal = Option<(u64, BenchFault)>;

/// A bench with some tests of judging 1, all of one case.
#[derive(Drop)]
pub struct MemoryBench<'a> {
    steps: &'a Steps,
    image: &'a [u8],
    flags: Flags,
    count: u16,
    bad_claim: Refusal,
    bad_post: Refusal,
    pending: Option<Task>,
    faults: u64,
    claims: u64,
    tasks: u64,
    posts: u64,
    heard: Claimed,
    ghost is_image: { is_image image.now ≡ true },
    ghost not_wide: { wide_token_of flags [] ≡ None },
    ghost few: { claims ≤ 2 ^ 32 },
    ghost fewer: { tasks ≤ claims },
    ghost fewest: { posts + unwrap_or (option_map (λ _. 1) pending) 0 ≤ tasks },
}

impl<'a> MemoryBench<'a> {
    /// A bench with `count` tests, of which the claim that `bad_claim` counts is refused, and the post that `bad_post`
    /// counts.
    pub fn new(
        steps: &'a Steps,
        image: &'a [u8],
        flags: Flags,
        count: u16,
        bad_claim: Refusal,
        bad_post: Refusal,
    ) -> MemoryBench<'a>
        requires is_image { is_image image.now ≡ true }
        requires not_wide { wide_token_of flags [] ≡ None }
        ensures claims { result.claims ≡ 0 }
        ensures heard { heard_at_claim result.heard ≡ None }
    {
        MemoryBench {
            steps,
            image,
            flags,
            count,
            bad_claim,
            bad_post,
            pending: None,
            faults: 0,
            claims: 0,
            tasks: 0,
            posts: 0,
            heard: Claimed::Task(Task {
                judging: 1,
                test: 1,
            }),
        }
    }
}

impl<'a> Bench for MemoryBench<'a> {
    ghost use Rattle.case_run.specs.Cases.{TestCase, ByDefault};

    ghost Fixed = { TestCase };

    ghost fixed = { λ b. record { image = b.image.now; input = []; answer = []; check = ByDefault b.flags; limits = record { instructions = 9; pages = 1; output = 0 } } };

    ghost pending = { λ b. option_map (λ task. (task, record { image = b.image.now; input = []; answer = []; check = ByDefault b.flags; limits = record { instructions = 9; pages = 1; output = 0 } })) b.pending };

    ghost faults = { λ b. b.faults };

    ghost claims = { λ b. b.claims };

    ghost tasks = { λ b. b.tasks };

    ghost posts = { λ b. b.posts };

    ghost heard = { λ b. heard_at_claim b.heard };

    ghost sound = { λ b. ⊤ };

    fn claim(&mut self) -> Claimed {
        write_down(self.steps, Step::Claim);
        self.claims += 1;
        self.pending = None;
        self.heard = self.next();
        match self.heard {
            Claimed::Task(task) => {
                self.tasks += 1;
                self.pending = Some(task);
            }
            Claimed::Nothing => (),
            Claimed::Refused(_) => self.faults = self.faults.saturating_add(1),
        }
        self.heard
    }

    fn case(&self, _task: Task) -> Case<'_> {
        Case {
            image: self.image,
            input: b"",
            answer: b"",
            check: Check::Default(self.flags),
            limits: LIMITS,
        }
    }

    fn post(&mut self, done: Done) -> Result<Reply, BenchFault> {
        let task = done.task();
        write_down(self.steps, Step::Post(task, done.kind()));
        self.posts += 1;
        self.pending = None;
        match refused(self.bad_post, self.posts) {
            Some(fault) => {
                self.faults = self.faults.saturating_add(1);
                self.heard = Claimed::Refused(fault);
                Err(fault)
            }
            None => {
                self.heard = Claimed::Task(task);
                Ok(Reply::Counted)
            }
        }
    }
}

impl<'a> MemoryBench<'a> {
    /// What the claim that was just made is answered.
    fn next(&self) -> Claimed {
        if let Some(fault) = refused(self.bad_claim, self.claims) {
            return Claimed::Refused(fault);
        }
        if self.tasks >= self.count as u64 {
            return Claimed::Nothing;
        }
        Claimed::Task(Task {
            judging: 1,
            test: self.tasks as u16 + 1,
        })
    }
}

/// Why the call of this number is refused, if it is.
fn refused(refusal: Refusal, number: u64) -> Option<BenchFault> {
    match refusal {
        Some((refused, fault)) if refused == number => Some(fault),
        _ => None,
    }
}

/// A gate that lets a host die at one point of one turn, or nowhere.
#[derive(Drop)]
pub struct RecordingGate<'a> {
    pub steps: &'a Steps,
    pub death: Option<(Point, u64)>,
}

impl<'a> Gate for RecordingGate<'a> {
    ghost may_answer = { λ gate host point turn go. true };

    fn pass(&self, host: u32, point: Point, turn: u64) -> Go {
        write_down(self.steps, Step::Pass(host, point, turn));
        if self.death == Some((point, turn)) {
            Go::Die
        } else {
            Go::On
        }
    }
}
