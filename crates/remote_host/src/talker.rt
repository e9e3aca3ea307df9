ghost use Rattle.std.specs.Prelude.{◌≡◌, ◌≢◌, ◌+◌, ◌≤◌, ◌⊎◌, ℕ, suc, List, Option, None, Some, Ok, Err, IfOk, IfErr, OnOk};
ghost use Rattle.farm_io.specs.Streams.{Rose};
ghost use Rattle.farm_io.specs.Beside.{side};
ghost use Rattle.farm_kinds.specs.declared.events.Reply.TheVariants as replies;
ghost use Rattle.http_door.specs.Answers.{Answer};
ghost use Rattle.remote_host.specs.declared.asks.Ask.TheVariants as asks;
ghost use Rattle.remote_host.specs.declared.asks.Kept.{Kept as KeptValue};
ghost use Rattle.remote_host.specs.Bodies.{post_said};
ghost use Rattle.remote_host.specs.Halts.{head_wrong};
ghost use Rattle.remote_host.specs.Requests.{spell};
ghost use Rattle.remote_host.specs.Talk.{Talk, talk, turns, onto, answered, case_next, post_next, count_fetch, count_post};
ghost use Rattle.remote_host.specs.Standing.{Line, Stands, Breaks, Asked, FetchedAt, JobAt, PostedAt, EnteredAt, TurnedAt, first_wrong, IsPlain};

use crate::asks::{Ask, Caller, Fetched, Kept, Wrong};
use crate::bodies::{NoJob, read_entered, read_fetched, read_job_of, read_posted};
use crate::exchange::{Halt, exchange};
use crate::kept::{case_ask, image_for};
use crate::requests::write_ask;
use farm_io::{Sink, Source};
use farm_kinds::{Kind, Reply, Task, Text};
use http_door::AnswerReader;
use judgehost::BenchFault;
use std::alloc::Global;
use wire_job::Job;

/// A host's end of a connection, and what was wrong on it.
#[derive(Drop)]
pub struct Talker<N> {
    pub alloc: Global,
    pub conn: N,
    pub reader: AnswerReader,
    /// The first wrong answer.
    pub wrong: Option<Wrong>,
    /// How many wrong answers were met.
    pub wrongs: u64,
    /// The request that was made last, or is made first. It is for people: no contract says which it is.
    pub last: Ask,
}

/// Counts a wrong answer, and keeps it where it is the first.
fn meet(kept: &mut Option<Wrong>, count: &mut u64, wrong: Wrong) -> BenchFault
    ensures link { result ≡ BenchFault.Link }
    ensures kept { kept.new ≡ first_wrong kept.old wrong }
    ensures met { kept.new ≢ None }
    ensures rose { Rose count.old count.new }
    ensures later { count.old ≤ count.new }
{
    if kept.is_none() {
        *kept = Some(wrong);
    }
    *count = count.saturating_add(1);
    BenchFault::Link
}

/// Why a request without a response refuses a call. A wrong answer is met.
fn refused(kept: &mut Option<Wrong>, count: &mut u64, halt: Halt) -> BenchFault
    ensures plain { IsPlain result }
    ensures kept { kept.old ≡ None → kept.new ≡ head_wrong halt }
    ensures later { count.old ≤ count.new }
    ensures link { result ≡ BenchFault.Link → (halt ≡ Halt.Failed) ⊎ Rose count.old count.new }
    ensures failed { result ≡ BenchFault.Link → kept.new ≡ None → halt ≡ Halt.Failed }
    ensures memory { result ≢ BenchFault.Link → halt ≡ Halt.NoMemory }
{
    match halt {
        Halt::Failed => BenchFault::Link,
        Halt::NoMemory => BenchFault::NoMemory,
        Halt::Wrong(wrong) => meet(kept, count, wrong),
    }
}

impl<N: Source + Sink> Talker<N> {
    /// Makes a request and takes its response, whose body then stands in the reader.
    fn ask(&mut self, caller: &Caller, ask: Ask) -> Result<(), BenchFault>
        requires source { (n : N) → N.Source.beside n ≡ side (N.held n) (N.Sink.faults n) }
        requires sink { (n : N) → N.Sink.beside n ≡ side (N.left n) (N.Source.faults n) }
        ensures talks { (start : Line) (claims fetched posted : ℕ) (f : ℕ → Answer → List Answer → Talk) → self.old.wrong ≡ None
            → Stands caller.now start
            (record { held = N.held self.old.conn; left = N.left self.old.conn; ahead = self.old.reader.ahead })
            claims fetched posted (λ n more. onto ask (answered (f n) more))
            → Asked caller.now start
            (record { held = N.held self.new.conn; left = N.left self.new.conn; ahead = self.new.reader.ahead })
            claims (count_fetch ask fetched) (count_post ask posted) f self.new.wrong self.new.reader.body result }
        ensures fine { OnOk result (self.new.wrong ≡ self.old.wrong) }
        ensures plain { IfErr result IsPlain }
        ensures later { N.Source.faults self.old.conn + N.Sink.faults self.old.conn + self.old.wrongs
            ≤ N.Source.faults self.new.conn + N.Sink.faults self.new.conn + self.new.wrongs }
        ensures link { result ≡ Err BenchFault.Link
            → Rose (N.Source.faults self.old.conn + N.Sink.faults self.old.conn + self.old.wrongs)
            (N.Source.faults self.new.conn + N.Sink.faults self.new.conn + self.new.wrongs) }
        ensures failed { result ≡ Err BenchFault.Link → self.new.wrong ≡ None
            → 1 ≤ N.Source.faults self.new.conn + N.Sink.faults self.new.conn }
        ensures kept { result ≢ Err BenchFault.Link
            → N.Source.faults self.new.conn + N.Sink.faults self.new.conn ≡ N.Source.faults self.old.conn + N.Sink.faults self.old.conn }
    {
        self.last = ask;
        match write_ask(self.alloc, caller, ask) {
            Err(_) => Err(BenchFault::NoMemory),
            Ok(request) => self.send(caller, ask, request.as_slice()),
        }
    }

    /// Puts the bytes of a request and takes its response.
    fn send(&mut self, _caller: &Caller, _ask: Ask, request: &[u8]) -> Result<(), BenchFault>
        requires source { (n : N) → N.Source.beside n ≡ side (N.held n) (N.Sink.faults n) }
        requires sink { (n : N) → N.Sink.beside n ≡ side (N.left n) (N.Source.faults n) }
        requires request { request.now ≡ spell _caller.now _ask }
        ensures talks { (start : Line) (claims fetched posted : ℕ) (f : ℕ → Answer → List Answer → Talk) → self.old.wrong ≡ None
            → Stands _caller.now start
            (record { held = N.held self.old.conn; left = N.left self.old.conn; ahead = self.old.reader.ahead })
            claims fetched posted (λ n more. onto _ask (answered (f n) more))
            → Asked _caller.now start
            (record { held = N.held self.new.conn; left = N.left self.new.conn; ahead = self.new.reader.ahead })
            claims (count_fetch _ask fetched) (count_post _ask posted) f self.new.wrong self.new.reader.body result }
        ensures fine { OnOk result (self.new.wrong ≡ self.old.wrong) }
        ensures plain { IfErr result IsPlain }
        ensures later { N.Source.faults self.old.conn + N.Sink.faults self.old.conn + self.old.wrongs
            ≤ N.Source.faults self.new.conn + N.Sink.faults self.new.conn + self.new.wrongs }
        ensures link { result ≡ Err BenchFault.Link
            → Rose (N.Source.faults self.old.conn + N.Sink.faults self.old.conn + self.old.wrongs)
            (N.Source.faults self.new.conn + N.Sink.faults self.new.conn + self.new.wrongs) }
        ensures failed { result ≡ Err BenchFault.Link → self.new.wrong ≡ None
            → 1 ≤ N.Source.faults self.new.conn + N.Sink.faults self.new.conn }
        ensures kept { result ≢ Err BenchFault.Link
            → N.Source.faults self.new.conn + N.Sink.faults self.new.conn ≡ N.Source.faults self.old.conn + N.Sink.faults self.old.conn }
    {
        match exchange(&mut self.conn, &mut self.reader, request) {
            Ok(()) => Ok(()),
            Err(halt) => Err(refused(&mut self.wrong, &mut self.wrongs, halt)),
        }
    }

    /// Asks for a task.
    fn fetch(&mut self, caller: &Caller) -> Result<Fetched, BenchFault>
        requires source { (n : N) → N.Source.beside n ≡ side (N.held n) (N.Sink.faults n) }
        requires sink { (n : N) → N.Sink.beside n ≡ side (N.left n) (N.Source.faults n) }
        ensures talks { (start : Line) (claims fetched posted : ℕ) (kept : Option KeptValue) → self.old.wrong ≡ None
            → Stands caller.now start
            (record { held = N.held self.old.conn; left = N.left self.old.conn; ahead = self.old.reader.ahead })
            claims fetched posted (λ n more. turns caller.now (suc n) kept more)
            → FetchedAt caller.now start
            (record { held = N.held self.new.conn; left = N.left self.new.conn; ahead = self.new.reader.ahead })
            claims (fetched + 1) posted kept self.new.wrong result }
        ensures fine { OnOk result (self.new.wrong ≡ self.old.wrong) }
        ensures plain { IfErr result IsPlain }
        ensures later { N.Source.faults self.old.conn + N.Sink.faults self.old.conn + self.old.wrongs
            ≤ N.Source.faults self.new.conn + N.Sink.faults self.new.conn + self.new.wrongs }
        ensures link { result ≡ Err BenchFault.Link
            → Rose (N.Source.faults self.old.conn + N.Sink.faults self.old.conn + self.old.wrongs)
            (N.Source.faults self.new.conn + N.Sink.faults self.new.conn + self.new.wrongs) }
        ensures failed { result ≡ Err BenchFault.Link → self.new.wrong ≡ None
            → 1 ≤ N.Source.faults self.new.conn + N.Sink.faults self.new.conn }
        ensures kept { result ≢ Err BenchFault.Link
            → N.Source.faults self.new.conn + N.Sink.faults self.new.conn ≡ N.Source.faults self.old.conn + N.Sink.faults self.old.conn }
    {
        match self.ask(caller, Ask::Fetch) {
            Err(fault) => Err(fault),
            Ok(()) => match read_fetched(self.alloc, self.reader.body()) {
                Err(_) => Err(BenchFault::NoMemory),
                Ok(read) => match read {
                    None => Err(meet(&mut self.wrong, &mut self.wrongs, Wrong::BadBody)),
                    Some(said) => Ok(said),
                },
            },
        }
    }

    /// Asks for the case of a task that was handed out, which is run with this image where there is one.
    fn job(&mut self, caller: &Caller, has: Option<Text>, task: Task) -> Result<Job, BenchFault>
        requires source { (n : N) → N.Source.beside n ≡ side (N.held n) (N.Sink.faults n) }
        requires sink { (n : N) → N.Sink.beside n ≡ side (N.left n) (N.Source.faults n) }
        ensures talks { (start : Line) (claims fetched posted : ℕ) → self.old.wrong ≡ None
            → Stands caller.now start
            (record { held = N.held self.old.conn; left = N.left self.old.conn; ahead = self.old.reader.ahead })
            claims fetched posted (λ n more. case_next (turns caller.now n) has task more)
            → JobAt caller.now start
            (record { held = N.held self.new.conn; left = N.left self.new.conn; ahead = self.new.reader.ahead })
            claims fetched posted self.new.wrong task result }
        ensures task { IfOk result (λ j. j.task ≡ task) }
        ensures fine { OnOk result (self.new.wrong ≡ self.old.wrong) }
        ensures plain { IfErr result IsPlain }
        ensures later { N.Source.faults self.old.conn + N.Sink.faults self.old.conn + self.old.wrongs
            ≤ N.Source.faults self.new.conn + N.Sink.faults self.new.conn + self.new.wrongs }
        ensures link { result ≡ Err BenchFault.Link
            → Rose (N.Source.faults self.old.conn + N.Sink.faults self.old.conn + self.old.wrongs)
            (N.Source.faults self.new.conn + N.Sink.faults self.new.conn + self.new.wrongs) }
        ensures failed { result ≡ Err BenchFault.Link → self.new.wrong ≡ None
            → 1 ≤ N.Source.faults self.new.conn + N.Sink.faults self.new.conn }
        ensures kept { result ≢ Err BenchFault.Link
            → N.Source.faults self.new.conn + N.Sink.faults self.new.conn ≡ N.Source.faults self.old.conn + N.Sink.faults self.old.conn }
    {
        match self.ask(caller, case_ask(&has, task)) {
            Err(fault) => Err(fault),
            Ok(()) => match read_job_of(self.alloc, has, task, self.reader.body()) {
                Ok(job) => Ok(job),
                Err(no_job) => match no_job {
                    NoJob::NoMemory => Err(BenchFault::NoMemory),
                    NoJob::Wrong(wrong) => Err(meet(&mut self.wrong, &mut self.wrongs, wrong)),
                },
            },
        }
    }

    /// Posts the result of a task. None where the host is not up.
    pub fn post(
        &mut self,
        caller: &Caller,
        task: Task,
        kind: Kind,
    ) -> Result<Option<Reply>, BenchFault>
        requires source { (n : N) → N.Source.beside n ≡ side (N.held n) (N.Sink.faults n) }
        requires sink { (n : N) → N.Sink.beside n ≡ side (N.left n) (N.Source.faults n) }
        ensures talks { (start : Line) (claims fetched posted : ℕ) (kept : Option KeptValue) → self.old.wrong ≡ None
            → Stands caller.now start
            (record { held = N.held self.old.conn; left = N.left self.old.conn; ahead = self.old.reader.ahead })
            claims fetched posted (λ n more. onto (asks.Post task kind) (answered (λ a later. post_next (turns caller.now n kept) later (post_said a.body)) more))
            → PostedAt caller.now start
            (record { held = N.held self.new.conn; left = N.left self.new.conn; ahead = self.new.reader.ahead })
            claims fetched (posted + 1) kept self.new.wrong result }
        ensures no_host { (name : List ℕ) → result ≢ Ok (Some (replies.NoHost name)) }
        ensures no_memory { result ≢ Ok (Some replies.NoMemory) }
        ensures fine { OnOk result (self.new.wrong ≡ self.old.wrong) }
        ensures plain { IfErr result IsPlain }
        ensures later { N.Source.faults self.old.conn + N.Sink.faults self.old.conn + self.old.wrongs
            ≤ N.Source.faults self.new.conn + N.Sink.faults self.new.conn + self.new.wrongs }
        ensures link { result ≡ Err BenchFault.Link
            → Rose (N.Source.faults self.old.conn + N.Sink.faults self.old.conn + self.old.wrongs)
            (N.Source.faults self.new.conn + N.Sink.faults self.new.conn + self.new.wrongs) }
        ensures failed { result ≡ Err BenchFault.Link → self.new.wrong ≡ None
            → 1 ≤ N.Source.faults self.new.conn + N.Sink.faults self.new.conn }
        ensures kept { result ≢ Err BenchFault.Link
            → N.Source.faults self.new.conn + N.Sink.faults self.new.conn ≡ N.Source.faults self.old.conn + N.Sink.faults self.old.conn }
    {
        match self.ask(caller, Ask::Post(task, kind)) {
            Err(fault) => Err(fault),
            Ok(()) => match read_posted(self.alloc, self.reader.body()) {
                Err(_) => Err(BenchFault::NoMemory),
                Ok(read) => match read {
                    None => Err(meet(&mut self.wrong, &mut self.wrongs, Wrong::BadBody)),
                    Some(said) => Ok(said),
                },
            },
        }
    }

    /// Enters the name.
    pub fn enter(&mut self, caller: &Caller) -> Result<(), BenchFault>
        requires source { (n : N) → N.Source.beside n ≡ side (N.held n) (N.Sink.faults n) }
        requires sink { (n : N) → N.Sink.beside n ≡ side (N.left n) (N.Source.faults n) }
        ensures talks { (start : Line) (claims fetched posted : ℕ) → self.old.wrong ≡ None
            → Stands caller.now start
            (record { held = N.held self.old.conn; left = N.left self.old.conn; ahead = self.old.reader.ahead })
            claims fetched posted (λ n more. talk caller.now n more)
            → EnteredAt caller.now start
            (record { held = N.held self.new.conn; left = N.left self.new.conn; ahead = self.new.reader.ahead })
            claims fetched posted self.new.wrong result }
        ensures fine { OnOk result (self.new.wrong ≡ self.old.wrong) }
        ensures plain { IfErr result IsPlain }
        ensures later { N.Source.faults self.old.conn + N.Sink.faults self.old.conn + self.old.wrongs
            ≤ N.Source.faults self.new.conn + N.Sink.faults self.new.conn + self.new.wrongs }
        ensures link { result ≡ Err BenchFault.Link
            → Rose (N.Source.faults self.old.conn + N.Sink.faults self.old.conn + self.old.wrongs)
            (N.Source.faults self.new.conn + N.Sink.faults self.new.conn + self.new.wrongs) }
        ensures failed { result ≡ Err BenchFault.Link → self.new.wrong ≡ None
            → 1 ≤ N.Source.faults self.new.conn + N.Sink.faults self.new.conn }
        ensures kept { result ≢ Err BenchFault.Link
            → N.Source.faults self.new.conn + N.Sink.faults self.new.conn ≡ N.Source.faults self.old.conn + N.Sink.faults self.old.conn }
    {
        match self.ask(caller, Ask::Enter) {
            Err(fault) => Err(fault),
            Ok(()) => match read_entered(self.alloc, self.reader.body()) {
                Err(_) => Err(BenchFault::NoMemory),
                Ok(read) => match read {
                    None => Err(meet(&mut self.wrong, &mut self.wrongs, Wrong::BadBody)),
                    Some(said) => Ok(said),
                },
            },
        }
    }

    /// Asks for a task and its case, for which the image that is kept may serve. None where no task is open; then all is
    /// still kept.
    pub fn fetch_job(
        &mut self,
        caller: &Caller,
        kept: &mut Option<Kept>,
    ) -> Result<Option<Job>, BenchFault>
        requires source { (n : N) → N.Source.beside n ≡ side (N.held n) (N.Sink.faults n) }
        requires sink { (n : N) → N.Sink.beside n ≡ side (N.left n) (N.Source.faults n) }
        ensures talks { (start : Line) (claims fetched posted : ℕ) → self.old.wrong ≡ None
            → Stands caller.now start
            (record { held = N.held self.old.conn; left = N.left self.old.conn; ahead = self.old.reader.ahead })
            claims fetched posted (λ n more. turns caller.now (suc n) kept.old more)
            → TurnedAt caller.now start
            (record { held = N.held self.new.conn; left = N.left self.new.conn; ahead = self.new.reader.ahead })
            claims (fetched + 1) posted kept.new self.new.wrong result }
        ensures later { N.Source.faults self.old.conn + N.Sink.faults self.old.conn + self.old.wrongs
            ≤ N.Source.faults self.new.conn + N.Sink.faults self.new.conn + self.new.wrongs }
        ensures link { result ≡ Err BenchFault.Link
            → Rose (N.Source.faults self.old.conn + N.Sink.faults self.old.conn + self.old.wrongs)
            (N.Source.faults self.new.conn + N.Sink.faults self.new.conn + self.new.wrongs) }
        ensures failed { result ≡ Err BenchFault.Link → self.new.wrong ≡ None
            → 1 ≤ N.Source.faults self.new.conn + N.Sink.faults self.new.conn }
        ensures kept { result ≢ Err BenchFault.Link
            → N.Source.faults self.new.conn + N.Sink.faults self.new.conn ≡ N.Source.faults self.old.conn + N.Sink.faults self.old.conn }
    {
        match self.fetch(caller) {
            Err(fault) => Err(fault),
            Ok(said) => match said {
                Fetched::Nothing => Ok(None),
                Fetched::NoHost => Err(BenchFault::NoHost),
                Fetched::Holding => Err(BenchFault::Holding),
                Fetched::Task(task) => {
                    let has = image_for(kept.take(), task);
                    match self.job(caller, has, task) {
                        Err(fault) => Err(fault),
                        Ok(job) => Ok(Some(job)),
                    }
                }
            },
        }
    }
}
