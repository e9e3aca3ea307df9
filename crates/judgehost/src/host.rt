ghost use Rattle.std.specs.Prelude.{◌≡◌, ℕ, ◌+◌, ◌≤◌, ◌<◌, ◌^◌, None, Some, IfOk, IfErr, true};
ghost use Rattle.case_run.specs.Cases.{TestCase};
ghost use Rattle.case_run.specs.Values.{case_value};
ghost use Rattle.judgehost.specs.declared.bench.BenchFault.{BenchFault as FaultValue};
ghost use Rattle.judgehost.specs.declared.gate.Point.{Point as PointValue};
ghost use Rattle.judgehost.specs.Gates.{MayPass, MayPost};
ghost use Rattle.judgehost.specs.Benches.{Nothing, Refused};
ghost use Rattle.judgehost.specs.Hosts.{Handed, left_over, IsCause, IsUnhanded, IsUnposted, IsUnrun};

use crate::bench::{Bench, BenchFault, Claimed};
use crate::gate::{Gate, Go, Point};
use crate::runner::{Done, Run, Runner};
use farm_kinds::Task;

/// Why a host stopped.
#[derive(Clone, Copy, Debug, PartialEq, Eq)]
pub enum HostEnd {
    /// No task was open.
    Idle,
    /// The gate let it die at this point of this turn. Turns are numbered from 1.
    Died { point: Point, turn: u64 },
    /// It has made all the claims that it was to make.
    Fuel,
    /// The bench refused a call.
    Bench(BenchFault),
    /// No memory was left to run the case of the pending task, whose result is not posted.
    NoMemory,
}

/// Works as a host: claims one task after the other, runs its case and posts the result, until no task is open, the gate
/// lets the host die, a call is refused, or `fuel` claims were made.
///
/// A turn is one claim and what follows it. The gate is asked after each claim that hands out a task, before the post
/// and after it. After whatever ends the host nothing is called any more.
pub fn host_loop<B: Bench, G: Gate>(
    runner: &Runner,
    bench: &mut B,
    gate: &G,
    host: u32,
    fuel: u64,
) -> HostEnd
    requires new { B.claims bench.old ≡ 0 }
    requires silent { B.heard bench.old ≡ None }
    requires fuel { fuel ≤ 2 ^ 32 }
    ensures idle { result ≡ HostEnd.Idle → B.heard bench.new ≡ Some Nothing }
    ensures asked { result ≡ HostEnd.Idle → 1 ≤ B.claims bench.new }
    ensures died { (point : PointValue) (turn : ℕ) → result ≡ HostEnd.Died point turn → G.may_answer gate.now host point turn Go.Die ≡ true }
    ensures turn { (point : PointValue) (turn : ℕ) → result ≡ HostEnd.Died point turn → turn ≡ B.claims bench.new }
    ensures spent { result ≡ HostEnd.Fuel → B.claims bench.new ≡ fuel }
    ensures unheard { result ≡ HostEnd.Fuel → B.heard bench.new ≡ None }
    ensures refused { (fault : FaultValue) → result ≡ HostEnd.Bench fault → B.heard bench.new ≡ Some (Refused fault) }
    ensures no_memory { result ≡ HostEnd.NoMemory → IsUnrun (Run.post runner.now.run) (B.pending bench.new) }
    ensures claims { B.claims bench.new ≤ fuel }
    ensures tasks { Handed result (B.claims bench.new + B.tasks bench.old) (B.tasks bench.new) }
    ensures posts { B.posts bench.new + B.tasks bench.old + left_over result ≡ B.posts bench.old + B.tasks bench.new }
    ensures passed { (turn : ℕ) → 1 ≤ turn → turn < B.claims bench.new → MayPass (G.may_answer gate.now) host turn }
    ensures all_passed { result ≡ HostEnd.Fuel → (turn : ℕ) → 1 ≤ turn → turn ≤ fuel → MayPass (G.may_answer gate.now) host turn }
    ensures sound { B.pending bench.old ≡ None → B.sound bench.old → B.sound bench.new }
    ensures later { B.faults bench.old ≤ B.faults bench.new }
    ensures fixed { B.fixed bench.new ≡ B.fixed bench.old }
{
    for made in 0..fuel {
        if let Err(end) = take_turn(runner, bench, gate, host, made + 1) {
            return end;
        }
    }
    HostEnd::Fuel
}

/// One claim and what follows it. An error says why the host stops.
fn take_turn<B: Bench, G: Gate>(
    runner: &Runner,
    bench: &mut B,
    gate: &G,
    host: u32,
    turn: u64,
) -> Result<(), HostEnd>
    requires turn { turn ≡ B.claims bench.old + 1 }
    requires silent { B.heard bench.old ≡ None }
    requires room { turn ≤ 2 ^ 32 }
    ensures claims { B.claims bench.new ≡ turn }
    ensures goes_on { IfOk result (λ _. (B.heard bench.new ≡ None) × (B.tasks bench.new ≡ B.tasks bench.old + 1)
        × (B.posts bench.new ≡ B.posts bench.old + 1) × MayPass (G.may_answer gate.now) host turn) }
    ensures stops { IfErr result (λ end. IsCause (Run.post runner.now.run) (G.may_answer gate.now) host turn (B.heard bench.new) (B.pending bench.new) end
        × Handed end (B.tasks bench.old + 1) (B.tasks bench.new)
        × (B.posts bench.new + B.tasks bench.old + left_over end ≡ B.posts bench.old + B.tasks bench.new)) }
    ensures sound { B.pending bench.old ≡ None → B.sound bench.old → B.sound bench.new }
    ensures bare { IfOk result (λ _. B.pending bench.new ≡ None) }
    ensures later { B.faults bench.old ≤ B.faults bench.new }
    ensures fixed { B.fixed bench.new ≡ B.fixed bench.old }
{
    let task = claim(bench)?;
    pass(gate, host, Point::AfterClaim, turn)?;
    let Ok(done) = runner.run(task, &bench.case(task)) else {
        return Err(HostEnd::NoMemory);
    };
    post(bench, gate, host, turn, done)
}

/// Asks for a task. An error says why the host stops.
fn claim<B: Bench>(bench: &mut B) -> Result<Task, HostEnd>
    requires silent { B.heard bench.old ≡ None }
    requires room { B.claims bench.old < 2 ^ 32 }
    ensures claims { B.claims bench.new ≡ B.claims bench.old + 1 }
    ensures posts { B.posts bench.new ≡ B.posts bench.old }
    ensures task { IfOk result (λ task. (c : TestCase) × (B.pending bench.new ≡ Some (task, c))) }
    ensures goes_on { IfOk result (λ _. (B.heard bench.new ≡ None) × (B.tasks bench.new ≡ B.tasks bench.old + 1)) }
    ensures stops { IfErr result (λ end. IsUnhanded (B.heard bench.new) end × (B.tasks bench.new ≡ B.tasks bench.old)) }
    ensures sound { B.pending bench.old ≡ None → B.sound bench.old → B.sound bench.new }
    ensures later { B.faults bench.old ≤ B.faults bench.new }
    ensures fixed { B.fixed bench.new ≡ B.fixed bench.old }
{
    match bench.claim() {
        Claimed::Task(task) => Ok(task),
        Claimed::Nothing => Err(HostEnd::Idle),
        Claimed::Refused(fault) => Err(HostEnd::Bench(fault)),
    }
}

/// Posts the result of the pending task, and asks the gate before and after. An error says why the host stops.
fn post<B: Bench, G: Gate>(
    bench: &mut B,
    gate: &G,
    host: u32,
    turn: u64,
    done: Done,
) -> Result<(), HostEnd>
    requires silent { B.heard bench.old ≡ None }
    requires value { (c : TestCase) × (B.pending bench.old ≡ Some (done.task, c)) × (done.kind ≡ case_value c) }
    ensures claims { B.claims bench.new ≡ B.claims bench.old }
    ensures tasks { B.tasks bench.new ≡ B.tasks bench.old }
    ensures goes_on { IfOk result (λ _. (B.heard bench.new ≡ None) × (B.posts bench.new ≡ B.posts bench.old + 1)
        × MayPost (G.may_answer gate.now) host turn) }
    ensures stops { IfErr result (λ end. IsUnposted (G.may_answer gate.now) host turn (B.heard bench.new) end
        × (B.posts bench.new + left_over end ≡ B.posts bench.old + 1)) }
    ensures sound { B.sound bench.old → B.sound bench.new }
    ensures bare { IfOk result (λ _. B.pending bench.new ≡ None) }
    ensures later { B.faults bench.old ≤ B.faults bench.new }
    ensures fixed { B.fixed bench.new ≡ B.fixed bench.old }
{
    pass(gate, host, Point::BeforePost, turn)?;
    if let Err(fault) = bench.post(done) {
        return Err(HostEnd::Bench(fault));
    }
    pass(gate, host, Point::AfterPost, turn)
}

/// Asks the gate. An error says that the host died here.
fn pass<G: Gate>(gate: &G, host: u32, point: Point, turn: u64) -> Result<(), HostEnd>
    ensures on { IfOk result (λ _. G.may_answer gate.now host point turn Go.On ≡ true) }
    ensures died { IfErr result (λ end. (end ≡ HostEnd.Died point turn) × (G.may_answer gate.now host point turn Go.Die ≡ true)) }
{
    match gate.pass(host, point, turn) {
        Go::On => Ok(()),
        Go::Die => Err(HostEnd::Died { point, turn }),
    }
}
