ghost use Rattle.std.specs.Prelude.{◌≡◌, ◌≢◌, ◌+◌, ◌≤◌, ◌<◌, ◌^◌, [], ◌∷◌, ℕ, List, None, Some, Ok, Err, IfOk, IfErr, OnOk};
ghost use Rattle.farm_io.specs.Streams.{Rose};
ghost use Rattle.farm_io.specs.Beside.{side};
ghost use Rattle.farm_kinds.specs.declared.events.Reply.TheVariants as replies;
ghost use Rattle.case_run.specs.Cases.{TestCase};
ghost use Rattle.case_run.specs.Values.{case_value};
ghost use Rattle.judgehost.specs.Benches.{IsPending, heard_at_claim, heard_at_post, tasks_in};
ghost use Rattle.remote_host.specs.Standing.{IsAt, EnteredAt, IsPlain};
ghost use Rattle.remote_host.specs.Benches.{pending_job, is_pending, IsFresh, HasFailed, end_heard};

use crate::asks::{Ask, Caller, Kept, Wrong};
use crate::kept::keep;
use crate::talker::Talker;
use case_run::Case;
use farm_io::{Sink, Source};
use farm_kinds::{Reply, Task};
use http_door::AnswerReader;
use http_server::Log;
use judgehost::{Bench, BenchFault, Claimed, Done, HostEnd};
use std::alloc::Global;
use wire_job::Job;

/// The bench of a host over a connection to a judge server.
#[derive(Drop)]
pub struct RemoteBench<N: Source + Sink> {
    pub talker: Talker<N>,
    pub caller: Caller,
    /// The connection as it came. It takes no bytes.
    pub start: Log<N, ()>,
    pub job: Option<Job>,
    /// What is kept of the job that was posted last.
    pub kept: Option<Kept>,
    /// What the last call answered. A task stands for nothing that was heard.
    pub heard: Claimed,
    /// How many claims were made before it was resumed last.
    pub before: u64,
    pub claims: u64,
    pub tasks: u64,
    pub posts: u64,
    ghost source: { (n : N) → N.Source.beside n ≡ side (N.held n) (N.Sink.faults n) },
    ghost sink: { (n : N) → N.Sink.beside n ≡ side (N.left n) (N.Source.faults n) },
    ghost few: { claims ≤ 2 ^ 32 },
    ghost early: { before ≤ 2 ^ 32 },
    ghost fewer: { tasks ≤ before + claims },
    ghost fewest: { posts + is_pending job ≤ tasks },
}

/// What stands for nothing that was heard.
fn silence() -> Claimed
    ensures { heard_at_claim result ≡ None }
{
    Claimed::Task(Task {
        judging: 1,
        test: 1,
    })
}

impl<N: Source + Sink> RemoteBench<N> {
    /// The bench of a host over a connection on which nothing was done yet.
    pub fn new(alloc: Global, conn: N, caller: Caller) -> RemoteBench<N>
        requires source { (n : N) → N.Source.beside n ≡ side (N.held n) (N.Sink.faults n) }
        requires sink { (n : N) → N.Sink.beside n ≡ side (N.left n) (N.Source.faults n) }
        ensures talker { (result.talker.conn ≡ conn) × (result.caller ≡ caller) × (result.talker.wrong ≡ None)
            × (result.talker.wrongs ≡ 0) × (result.talker.reader.ahead ≡ []) }
        ensures start { result.start.items ≡ (conn, tt) ∷ [] }
        ensures fresh { IsFresh result.before result.claims result.tasks result.posts result.kept result.job (heard_at_claim result.heard) }
    {
        let start = Log::new().and(&conn, &());
        RemoteBench {
            talker: Talker {
                alloc,
                conn,
                reader: AnswerReader::new(alloc),
                wrong: None,
                wrongs: 0,
                last: Ask::Enter,
            },
            caller,
            start,
            job: None,
            kept: None,
            heard: silence(),
            before: 0,
            claims: 0,
            tasks: 0,
            posts: 0,
        }
    }

    /// Enters the host's name. Refused with `Link` or `NoMemory` alone.
    pub fn enter(&mut self) -> Result<(), BenchFault>
        requires start { self.old.start.items ≡ (self.old.talker.conn, tt) ∷ [] }
        requires wrong { self.old.talker.wrong ≡ None }
        requires ahead { self.old.talker.reader.ahead ≡ [] }
        requires fresh { IsFresh self.old.before self.old.claims self.old.tasks self.old.posts self.old.kept self.old.job (heard_at_claim self.old.heard) }
        ensures entered { (s : N) × (self.new.start.items ≡ (s, tt) ∷ []) × EnteredAt self.new.caller
            (record { held = N.held s; left = N.left s; ahead = [] })
            (record { held = N.held self.new.talker.conn; left = N.left self.new.talker.conn; ahead = self.new.talker.reader.ahead })
            0 0 0 self.new.talker.wrong result }
        ensures fine { OnOk result (self.new.talker.wrong ≡ None) }
        ensures plain { IfErr result IsPlain }
        ensures start { self.new.start ≡ self.old.start }
        ensures caller { self.new.caller ≡ self.old.caller }
        ensures fresh { IsFresh self.new.before self.new.claims self.new.tasks self.new.posts self.new.kept self.new.job (heard_at_claim self.new.heard) }
        ensures later { N.Source.faults self.old.talker.conn + N.Sink.faults self.old.talker.conn + self.old.talker.wrongs
            ≤ N.Source.faults self.new.talker.conn + N.Sink.faults self.new.talker.conn + self.new.talker.wrongs }
        ensures link { result ≡ Err BenchFault.Link
            → Rose (N.Source.faults self.old.talker.conn + N.Sink.faults self.old.talker.conn + self.old.talker.wrongs)
            (N.Source.faults self.new.talker.conn + N.Sink.faults self.new.talker.conn + self.new.talker.wrongs) }
        ensures failed { result ≡ Err BenchFault.Link → self.new.talker.wrong ≡ None
            → 1 ≤ N.Source.faults self.new.talker.conn + N.Sink.faults self.new.talker.conn }
        ensures kept { result ≢ Err BenchFault.Link
            → N.Source.faults self.new.talker.conn + N.Sink.faults self.new.talker.conn ≡ N.Source.faults self.old.talker.conn + N.Sink.faults self.old.talker.conn }
    {
        self.talker.enter(&self.caller)
    }

    /// Asks again from here on, where no task was open.
    pub fn resume(&mut self)
        requires few { self.old.before + self.old.claims ≤ 2 ^ 32 }
        ensures before { self.new.before ≡ self.old.before + self.old.claims }
        ensures claims { self.new.claims ≡ 0 }
        ensures heard { heard_at_claim self.new.heard ≡ None }
        ensures rest { (self.new.talker ≡ self.old.talker) × (self.new.caller ≡ self.old.caller) × (self.new.start ≡ self.old.start) × (self.new.job ≡ self.old.job)
            × (self.new.kept ≡ self.old.kept) × (self.new.tasks ≡ self.old.tasks) × (self.new.posts ≡ self.old.posts) }
    {
        self.before += self.claims;
        self.claims = 0;
        self.heard = silence();
    }

    /// How the host ended, by what ended its loop and what it heard last: one that was refused ended so, and did not die.
    pub fn end_heard(&self, end: HostEnd) -> HostEnd
        ensures { result ≡ end_heard (heard_at_claim self.now.heard) end }
    {
        match end {
            HostEnd::Idle => HostEnd::Idle,
            HostEnd::Died { point, turn } => match self.heard {
                Claimed::Task(_) => HostEnd::Died { point, turn },
                Claimed::Nothing => HostEnd::Died { point, turn },
                Claimed::Refused(fault) => HostEnd::Bench(fault),
            },
            HostEnd::Fuel => HostEnd::Fuel,
            HostEnd::Bench(fault) => HostEnd::Bench(fault),
            HostEnd::NoMemory => HostEnd::NoMemory,
        }
    }

    /// Whether the host asks again where no task is open.
    pub fn waits(&self) -> bool
        ensures { result ≡ self.now.caller.waits }
    {
        self.caller.waits
    }

    /// The first wrong answer that the bench met.
    pub fn wrong(&self) -> Option<Wrong>
        ensures { result ≡ self.now.talker.wrong }
    {
        self.talker.wrong
    }

    /// The request that was made last, to tell a person which one a wrong answer was to.
    pub fn last(&self) -> Ask
        ensures { result ≡ self.now.talker.last }
    {
        self.talker.last
    }

    /// How many claims were made in all.
    pub fn claims(&self) -> u64
        ensures { result ≡ self.now.before + self.now.claims }
    {
        self.before + self.claims
    }

    /// How many results were posted.
    pub fn posts(&self) -> u64
        ensures { result ≡ self.now.posts }
    {
        self.posts
    }

    /// Gives the connection back.
    pub fn end(self) -> N
        ensures { result ≡ self.talker.conn }
    {
        self.talker.conn
    }
}

impl<N: Source + Sink> Bench for RemoteBench<N> {
    ghost use Rattle.remote_host.specs.declared.asks.Caller.{Caller};

    ghost Fixed = { List (N × Unit {0}) × Caller × ℕ };

    ghost fixed = { λ b. (b.start.items, b.caller, b.before) };

    ghost pending = { λ b. pending_job b.job };

    ghost faults = { λ b. N.Source.faults b.talker.conn + N.Sink.faults b.talker.conn + b.talker.wrongs };

    ghost claims = { λ b. b.claims };

    ghost tasks = { λ b. b.tasks };

    ghost posts = { λ b. b.posts };

    ghost heard = { λ b. heard_at_claim b.heard };

    ghost sound = { λ b. (s : N) × (b.start.items ≡ (s, tt) ∷ []) × IsAt b.caller
        (record { held = N.held s; left = N.left s; ahead = [] })
        (record { held = N.held b.talker.conn; left = N.left b.talker.conn; ahead = b.talker.reader.ahead })
        (b.before + b.claims) b.posts b.kept (pending_job b.job) b.talker.wrong (heard_at_claim b.heard)
        × HasFailed (heard_at_claim b.heard) (pending_job b.job) b.talker.wrong (N.Source.faults s + N.Sink.faults s)
        (N.Source.faults b.talker.conn + N.Sink.faults b.talker.conn) };

    fn claim(&mut self) -> Claimed {
        self.claims += 1;
        self.job = None;
        match self.talker.fetch_job(&self.caller, &mut self.kept) {
            Ok(said) => match said {
                Some(job) => {
                    let task = job.task();
                    self.job = Some(job);
                    self.tasks += 1;
                    self.heard = Claimed::Task(task);
                    Claimed::Task(task)
                }
                None => {
                    self.heard = Claimed::Nothing;
                    Claimed::Nothing
                }
            },
            Err(fault) => {
                self.heard = Claimed::Refused(fault);
                Claimed::Refused(fault)
            }
        }
    }

    fn case(&self, _task: Task) -> Case<'_> {
        match &self.job {
            Some(job) => job.case(),
            // The task is the pending one.
            None => unreachable!(),
        }
    }

    fn post(&mut self, done: Done) -> Result<Reply, BenchFault> {
        self.posts += 1;
        self.kept = keep(self.job.take());
        match self.talker.post(&self.caller, done.task(), done.kind()) {
            Ok(said) => match said {
                Some(reply) => {
                    self.heard = silence();
                    Ok(reply)
                }
                None => {
                    self.heard = Claimed::Refused(BenchFault::NoHost);
                    Err(BenchFault::NoHost)
                }
            },
            Err(fault) => {
                self.heard = Claimed::Refused(fault);
                Err(fault)
            }
        }
    }
}
