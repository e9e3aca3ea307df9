ghost use Rattle.std.specs.Prelude.{◌≡◌, IfOk};
ghost use Rattle.case_run.specs.Cases.{CanRun, test_case};
ghost use Rattle.case_run.specs.Values.{case_value};

use crate::recording::{MemoryBench, RecordingGate, Refusal, Step, Steps};
use case_run::{Case, image_ok, run_case};
use default_validator::{Flags, wide_token};
use farm_kinds::{Kind, NoMemory, Task};
use judgehost::{AlwaysOn, BenchFault, Gate, Go, HostEnd, Point, Runner, host_loop};
use std::alloc::Global;
use std::cell::RefCell;
use std::process::Abort;
use std::sync::Arc;
use std::sync::atomic::{AtomicU64, Ordering};
use std::test::Fail;

/// The image of a program that exits with 0.
const EXIT: &[u8] = b"\x93\x08\xD0\x05\x73\x00\x00\x00";

/// What a host is given: a bench with three tasks, and what fails.
#[derive(Clone, Copy)]
struct Given {
    fuel: u32,
    bad_claim: Refusal,
    bad_post: Refusal,
    /// Which run finds no memory, counted from 1.
    bad_run: Option<u64>,
    death: Option<(Point, u64)>,
}

/// Nothing fails.
const SOUND: Given = Given {
    fuel: 9,
    bad_claim: None,
    bad_post: None,
    bad_run: None,
    death: None,
};

const FAULTS: [BenchFault; 5] = [
    BenchFault::Link,
    BenchFault::Holding,
    BenchFault::NoHost,
    BenchFault::NoCase {
        task: Task {
            judging: 1,
            test: 2,
        },
    },
    BenchFault::NoMemory,
];

/// A runner that counts its runs, of which the one of this number finds no memory.
pub(crate) fn counting_runner(
    alloc: Global,
    runs: &Arc<AtomicU64>,
    bad_run: Option<u64>,
) -> Result<Runner, Fail> {
    let counted = Arc::try_clone(runs)?;
    let run = Box::new(
        alloc,
        move |case: &Case<'_>| -> Result<Kind, NoMemory>
            requires { CanRun (test_case case.now) }
            ensures { IfOk result (λ kind. kind ≡ case_value (test_case case.now)) }
        {
            let run = counted.fetch_add(1, Ordering::SeqCst).wrapping_add(1);
            if bad_run == Some(run) {
                return Err(NoMemory);
            }
            run_case(alloc, case)
        },
    )?;
    Ok(Runner::new(run))
}

/// How host 7 ends. Its steps are written down.
fn play(given: Given, steps: &Steps, runner: &Runner) -> Result<HostEnd, Fail> {
    let Ok(flags) = Flags::read(b"") else {
        return Err(Fail::from("no flags"));
    };
    if !image_ok(EXIT) || wide_token(&flags, b"").is_some() {
        return Err(Fail::from("no case"));
    }
    let mut bench = MemoryBench::new(steps, EXIT, flags, 3, given.bad_claim, given.bad_post);
    let gate = RecordingGate {
        steps,
        death: given.death,
    };
    Ok(host_loop(runner, &mut bench, &gate, 7, given.fuel as u64))
}

/// A step of host 7 in a turn, where nothing fails.
fn step_of(turn: u16, place: usize) -> Step {
    let task = Task {
        judging: 1,
        test: turn,
    };
    match place {
        0 => Step::Claim,
        1 => Step::Pass(7, Point::AfterClaim, turn as u64),
        2 => Step::Pass(7, Point::BeforePost, turn as u64),
        3 => Step::Post(task, Kind::Correct),
        _ => Step::Pass(7, Point::AfterPost, turn as u64),
    }
}

/// Whether these are the first `count` steps of host 7, where nothing fails.
fn are_first_steps(steps: &[Step], count: usize) -> bool {
    for (at, step) in steps.iter().enumerate() {
        let turn = (at / 5 % 1000) as u16 + 1;
        if *step != step_of(turn, at % 5) {
            return false;
        }
    }
    steps.len() == count
}

/// Whether the host ends as `end`, after `steps` steps and `runs` runs.
fn is_played(
    alloc: Global,
    given: Given,
    end: HostEnd,
    steps: usize,
    runs: u64,
) -> Result<bool, Fail> {
    let counted = Arc::new(alloc, AtomicU64::new(0))?;
    let runner = counting_runner(alloc, &counted, given.bad_run)?;
    let taken = RefCell::new(Vec::new(alloc));
    let found = play(given, &taken, &runner);
    let taken = taken.into_inner();
    let played = are_first_steps(taken.as_slice(), steps) && counted.load(Ordering::SeqCst) == runs;
    drop(taken);
    drop(runner);
    drop(counted);
    Ok(found? == end && played)
}

fn check(
    rt: &impl Abort,
    alloc: Global,
    given: Given,
    end: HostEnd,
    steps: usize,
    runs: u64,
) -> Result<(), Fail> {
    let played = is_played(alloc, given, end, steps, runs)?;
    assert!(rt; played, "{end:?} after {steps} steps and {runs} runs");
    Ok(())
}

#[test]
fn a_host_works_until_nothing_is_open(rt: HostRuntime) -> Result<(), Fail> {
    check(&rt, rt.alloc(), SOUND, HostEnd::Idle, 16, 3)
}

#[test]
fn dead_hosts_call_nothing(rt: HostRuntime) -> Result<(), Fail> {
    for turn in 1..4u64 {
        let before = turn as usize * 5 - 5;
        for (point, steps, runs) in [
            (Point::AfterClaim, 2, turn - 1),
            (Point::BeforePost, 3, turn),
            (Point::AfterPost, 5, turn),
        ] {
            let given = Given {
                death: Some((point, turn)),
                ..SOUND
            };
            let end = HostEnd::Died { point, turn };
            check(&rt, rt.alloc(), given, end, before + steps, runs)?;
        }
    }
    Ok(())
}

#[test]
fn refusals_end_a_host(rt: HostRuntime) -> Result<(), Fail> {
    for fault in FAULTS {
        let bad_claim = Given {
            bad_claim: Some((2, fault)),
            ..SOUND
        };
        check(&rt, rt.alloc(), bad_claim, HostEnd::Bench(fault), 6, 1)?;
        let bad_post = Given {
            bad_post: Some((2, fault)),
            ..SOUND
        };
        check(&rt, rt.alloc(), bad_post, HostEnd::Bench(fault), 9, 2)?;
    }
    Ok(())
}

#[test]
fn a_run_without_memory_posts_nothing(rt: HostRuntime) -> Result<(), Fail> {
    let given = Given {
        bad_run: Some(2),
        ..SOUND
    };
    check(&rt, rt.alloc(), given, HostEnd::NoMemory, 7, 2)
}

#[test]
fn fuel_is_a_number_of_claims(rt: HostRuntime) -> Result<(), Fail> {
    for (fuel, end, steps, runs) in [
        (0, HostEnd::Fuel, 0, 0),
        (1, HostEnd::Fuel, 5, 1),
        (2, HostEnd::Fuel, 10, 2),
        (3, HostEnd::Fuel, 15, 3),
        (4, HostEnd::Idle, 16, 3),
    ] {
        check(&rt, rt.alloc(), Given { fuel, ..SOUND }, end, steps, runs)?;
    }
    Ok(())
}

#[test]
fn a_gate_that_is_always_on(rt: HostRuntime) {
    assert_eq!(rt; AlwaysOn.pass(1, Point::AfterClaim, 1), Go::On);
}
