ghost use Rattle.std.specs.Prelude.{◌≡◌, ◌≢◌, ◌+◌, ◌≤◌, ◌^◌, ℕ, List, [], ◌∷◌, None, Some, true, false};
ghost use Rattle.farm_io.specs.Beside.{side};
ghost use Rattle.judgehost.specs.declared.gate.Go.{Go as GoValue};
ghost use Rattle.judgehost.specs.declared.gate.Point.{Point as PointValue};
ghost use Rattle.judgehost.specs.Benches.{Nothing, heard_at_claim};
ghost use Rattle.remote_host.specs.Standing.{IsAt};
ghost use Rattle.remote_host.specs.Benches.{pending_job, IsFresh, HasFailed};
ghost use Rattle.remote_host.specs.Ends.{WorkedAs};

use crate::asks::{Ask, Caller, Wrong};
use crate::bench::RemoteBench;
use crate::pause::Pause;
use farm_io::{Sink, Source};
use judgehost::{BenchFault, Gate, Go, HostEnd, Runner, host_loop};
use std::alloc::Global;

/// The number of the host to its gate.
pub const HOST: u32 = 1;

/// Works until no task is open, or the host ends.
fn round<N: Source + Sink, G: Gate>(
    runner: &Runner,
    bench: &mut RemoteBench<N>,
    gate: &G,
    fuel: u64,
) -> HostEnd
    requires claims { bench.old.claims ≡ 0 }
    requires before { bench.old.before ≤ fuel }
    requires posted { bench.old.posts ≡ bench.old.tasks }
    requires silent { heard_at_claim bench.old.heard ≡ None }
    requires bare { pending_job bench.old.job ≡ None }
    requires fuel { fuel ≤ 2 ^ 32 }
    requires sound { (s : N) × (bench.old.start.items ≡ (s, tt) ∷ []) × IsAt bench.old.caller
        (record { held = N.held s; left = N.left s; ahead = [] })
        (record { held = N.held bench.old.talker.conn; left = N.left bench.old.talker.conn; ahead = bench.old.talker.reader.ahead })
        (bench.old.before + bench.old.claims) bench.old.posts bench.old.kept (pending_job bench.old.job) bench.old.talker.wrong (heard_at_claim bench.old.heard)
        × HasFailed (heard_at_claim bench.old.heard) (pending_job bench.old.job) bench.old.talker.wrong (N.Source.faults s + N.Sink.faults s)
        (N.Source.faults bench.old.talker.conn + N.Sink.faults bench.old.talker.conn) }
    ensures worked { (result ≡ HostEnd.Idle → bench.new.caller.waits ≡ false)
        → (s : N) × (bench.new.start.items ≡ (s, tt) ∷ []) × WorkedAs bench.new.caller
        (record { held = N.held s; left = N.left s; ahead = [] })
        (record { held = N.held bench.new.talker.conn; left = N.left bench.new.talker.conn; ahead = bench.new.talker.reader.ahead })
        fuel (bench.new.before + bench.new.claims) bench.new.posts bench.new.talker.wrong result }
    ensures sound { (s : N) × (bench.new.start.items ≡ (s, tt) ∷ []) × IsAt bench.new.caller
        (record { held = N.held s; left = N.left s; ahead = [] })
        (record { held = N.held bench.new.talker.conn; left = N.left bench.new.talker.conn; ahead = bench.new.talker.reader.ahead })
        (bench.new.before + bench.new.claims) bench.new.posts bench.new.kept (pending_job bench.new.job) bench.new.talker.wrong (heard_at_claim bench.new.heard)
        × HasFailed (heard_at_claim bench.new.heard) (pending_job bench.new.job) bench.new.talker.wrong (N.Source.faults s + N.Sink.faults s)
        (N.Source.faults bench.new.talker.conn + N.Sink.faults bench.new.talker.conn) }
    ensures idle { result ≡ HostEnd.Idle → heard_at_claim bench.new.heard ≡ Some Nothing }
    ensures posted { result ≡ HostEnd.Idle → bench.new.posts ≡ bench.new.tasks }
    ensures asked { result ≡ HostEnd.Idle → 1 ≤ bench.new.claims }
    ensures few { bench.new.before + bench.new.claims ≤ fuel }
    ensures before { bench.new.before ≡ bench.old.before }
    ensures start { bench.new.start.items ≡ bench.old.start.items }
    ensures caller { bench.new.caller ≡ bench.old.caller }
    ensures died { (point : PointValue) (turn : ℕ) → result ≡ HostEnd.Died point turn → G.may_answer gate.now 1 point turn Go.Die ≡ true }
    ensures failed { result ≡ HostEnd.Bench BenchFault.Link → bench.new.talker.wrong ≡ None
        → 1 ≤ N.Source.faults bench.new.talker.conn + N.Sink.faults bench.new.talker.conn }
    ensures kept { result ≢ HostEnd.Bench BenchFault.Link → (s : N) × (bench.new.start.items ≡ (s, tt) ∷ [])
        × (N.Source.faults bench.new.talker.conn + N.Sink.faults bench.new.talker.conn ≡ N.Source.faults s + N.Sink.faults s) }
{
    let left = fuel - bench.before;
    let end = host_loop(runner, bench, gate, HOST, left);
    bench.end_heard(end)
}

/// Works as a host over a connection, where the host's name was entered. Where the host waits and no task is open, it
/// pauses and asks again.
///
/// What was put on the connection since it came is the talk of the responses that were taken, or a prefix of it.
fn work<N: Source + Sink, G: Gate, P: Pause>(
    runner: &Runner,
    bench: &mut RemoteBench<N>,
    gate: &G,
    pause: &P,
    fuel: u64,
) -> HostEnd
    requires claims { bench.old.claims ≡ 0 }
    requires before { bench.old.before ≡ 0 }
    requires posted { bench.old.posts ≡ bench.old.tasks }
    requires silent { heard_at_claim bench.old.heard ≡ None }
    requires bare { pending_job bench.old.job ≡ None }
    requires fuel { fuel ≤ 2 ^ 32 }
    requires sound { (s : N) × (bench.old.start.items ≡ (s, tt) ∷ []) × IsAt bench.old.caller
        (record { held = N.held s; left = N.left s; ahead = [] })
        (record { held = N.held bench.old.talker.conn; left = N.left bench.old.talker.conn; ahead = bench.old.talker.reader.ahead })
        (bench.old.before + bench.old.claims) bench.old.posts bench.old.kept (pending_job bench.old.job) bench.old.talker.wrong (heard_at_claim bench.old.heard)
        × HasFailed (heard_at_claim bench.old.heard) (pending_job bench.old.job) bench.old.talker.wrong (N.Source.faults s + N.Sink.faults s)
        (N.Source.faults bench.old.talker.conn + N.Sink.faults bench.old.talker.conn) }
    ensures worked { (s : N) × (bench.new.start.items ≡ (s, tt) ∷ []) × WorkedAs bench.new.caller
        (record { held = N.held s; left = N.left s; ahead = [] })
        (record { held = N.held bench.new.talker.conn; left = N.left bench.new.talker.conn; ahead = bench.new.talker.reader.ahead })
        fuel (bench.new.before + bench.new.claims) bench.new.posts bench.new.talker.wrong result }
    ensures start { bench.new.start.items ≡ bench.old.start.items }
    ensures caller { bench.new.caller ≡ bench.old.caller }
    ensures died { (point : PointValue) (turn : ℕ) → result ≡ HostEnd.Died point turn → G.may_answer gate.now 1 point turn Go.Die ≡ true }
    ensures failed { result ≡ HostEnd.Bench BenchFault.Link → bench.new.talker.wrong ≡ None
        → 1 ≤ N.Source.faults bench.new.talker.conn + N.Sink.faults bench.new.talker.conn }
    ensures kept { result ≢ HostEnd.Bench BenchFault.Link → (s : N) × (bench.new.start.items ≡ (s, tt) ∷ [])
        × (N.Source.faults bench.new.talker.conn + N.Sink.faults bench.new.talker.conn ≡ N.Source.faults s + N.Sink.faults s) }
{
    loop {
        let end = round(runner, bench, gate, fuel);
        if end != HostEnd::Idle {
            return end;
        }
        if !bench.waits() {
            return end;
        }
        pause.pause();
        bench.resume();
    }
}

/// Enters the host's name, and works.
fn enter_and_work<N: Source + Sink, G: Gate, P: Pause>(
    runner: &Runner,
    bench: &mut RemoteBench<N>,
    gate: &G,
    pause: &P,
    fuel: u64,
) -> HostEnd
    requires start { bench.old.start.items ≡ (bench.old.talker.conn, tt) ∷ [] }
    requires wrong { bench.old.talker.wrong ≡ None }
    requires ahead { bench.old.talker.reader.ahead ≡ [] }
    requires fresh { IsFresh bench.old.before bench.old.claims bench.old.tasks bench.old.posts bench.old.kept bench.old.job (heard_at_claim bench.old.heard) }
    requires fuel { fuel ≤ 2 ^ 32 }
    ensures worked { (s : N) × (bench.new.start.items ≡ (s, tt) ∷ []) × WorkedAs bench.new.caller
        (record { held = N.held s; left = N.left s; ahead = [] })
        (record { held = N.held bench.new.talker.conn; left = N.left bench.new.talker.conn; ahead = bench.new.talker.reader.ahead })
        fuel (bench.new.before + bench.new.claims) bench.new.posts bench.new.talker.wrong result }
    ensures start { bench.new.start.items ≡ bench.old.start.items }
    ensures caller { bench.new.caller ≡ bench.old.caller }
    ensures died { (point : PointValue) (turn : ℕ) → result ≡ HostEnd.Died point turn → G.may_answer gate.now 1 point turn Go.Die ≡ true }
    ensures failed { result ≡ HostEnd.Bench BenchFault.Link → bench.new.talker.wrong ≡ None
        → 1 ≤ N.Source.faults bench.new.talker.conn + N.Sink.faults bench.new.talker.conn }
    ensures kept { result ≢ HostEnd.Bench BenchFault.Link → (s : N) × (bench.new.start.items ≡ (s, tt) ∷ [])
        × (N.Source.faults bench.new.talker.conn + N.Sink.faults bench.new.talker.conn ≡ N.Source.faults s + N.Sink.faults s) }
{
    match bench.enter() {
        Err(fault) => HostEnd::Bench(fault),
        Ok(()) => work(runner, bench, gate, pause, fuel),
    }
}

/// How a host ended over a connection.
#[derive(Drop)]
pub struct Worked<N> {
    /// The connection.
    pub conn: N,
    /// Why the host stopped. Where its name was not entered, this is the refusal.
    pub end: HostEnd,
    /// The first wrong answer.
    pub wrong: Option<Wrong>,
    /// The request that was made last, which is the one that a wrong answer was to. It is for people: no contract says which
    /// it is.
    pub last: Ask,
    /// How many claims were made.
    pub claims: u64,
    /// How many results were posted.
    pub posts: u64,
}

/// Works as a host over a connection on which nothing was done yet: enters the host's name, and claims one task after the
/// other, runs its case and posts the result. Where the host waits and no task is open, it pauses and asks again.
///
/// What was put on the connection is the talk of the responses that were taken, or a prefix of it.
pub fn work_over<N: Source + Sink, G: Gate, P: Pause>(
    alloc: Global,
    conn: N,
    caller: Caller,
    runner: &Runner,
    gate: &G,
    pause: &P,
    fuel: u64,
) -> Worked<N>
    requires source { (n : N) → N.Source.beside n ≡ side (N.held n) (N.Sink.faults n) }
    requires sink { (n : N) → N.Sink.beside n ≡ side (N.left n) (N.Source.faults n) }
    requires fuel { fuel ≤ 2 ^ 32 }
    ensures worked { (ahead : List ℕ) × WorkedAs caller
        (record { held = N.held conn; left = N.left conn; ahead = [] })
        (record { held = N.held result.conn; left = N.left result.conn; ahead = ahead })
        fuel result.claims result.posts result.wrong result.end }
    ensures died { (point : PointValue) (turn : ℕ) → result.end ≡ HostEnd.Died point turn → G.may_answer gate.now 1 point turn Go.Die ≡ true }
    ensures failed { result.end ≡ HostEnd.Bench BenchFault.Link → result.wrong ≡ None
        → 1 ≤ N.Source.faults result.conn + N.Sink.faults result.conn }
    ensures kept { result.end ≢ HostEnd.Bench BenchFault.Link
        → N.Source.faults result.conn + N.Sink.faults result.conn ≡ N.Source.faults conn + N.Sink.faults conn }
{
    let mut bench = RemoteBench::new(alloc, conn, caller);
    let end = enter_and_work(runner, &mut bench, gate, pause, fuel);
    let wrong = bench.wrong();
    let last = bench.last();
    let claims = bench.claims();
    let posts = bench.posts();
    Worked {
        conn: bench.end(),
        end,
        wrong,
        last,
        claims,
        posts,
    }
}
