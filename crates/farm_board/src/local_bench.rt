ghost use Rattle.std.specs.Prelude.{◌≡◌, ◌≢◌, ◌≤◌, ◌<◌, ◌+◌, ◌^◌, ℕ, List, [], None, Some, Ok, Err, true, false, unwrap_or, ⊤};
ghost use Rattle.std.specs.Option.{option_map};
ghost use Rattle.std.specs.List.{list_all};
ghost use Rattle.farm_kinds.specs.declared.kinds.Kind.{Kind as KindValue};
ghost use Rattle.farm_kinds.specs.declared.events.Reply.TheVariants as replies;
ghost use Rattle.farm_io.specs.Streams.{Rose};
ghost use Rattle.case_run.specs.Cases.{TestCase};
ghost use Rattle.case_run.specs.Values.{case_value};
ghost use Rattle.judgehost.specs.Benches.{IsPending, heard_at_claim, heard_at_post, tasks_in};
ghost use Rattle.farm_board.specs.Passes.{at_rest};
ghost use Rattle.farm_board.specs.Benches.{is_host_entry, pending_case, claimed_by, posted_by, link_faults, ClaimsOnce, PostsOnce};
ghost use Rattle.farm_board.specs.Trusts.{is_value_of};

use crate::board::{Board, Pass};
use crate::trust::{Admission, Proved};
use case_run::{Case, Cases};
use farm_kinds::{Event, Name, Reply, Task};
use judgehost::{Bench, BenchFault, Claimed, Done};
use std::sync::Wait;

/// The bench of a host in this process, over a pass of a board that trusts the values of cases.
#[derive(Drop)]
pub struct LocalBench<'a, W: Wait, C: Cases, A: Admission> {
    rt: &'a W,
    board: &'a Board<Proved<C>, A>,
    pass: Pass<A>,
    host: Name,
    claims: u64,
    tasks: u64,
    posts: u64,
    /// What the last call answered. A task stands for nothing that was heard.
    heard: Claimed,
    pending: Option<Task>,
    ghost of_board: { pass.board ≡ board.now.id },
    ghost own: { list_all (is_host_entry (λ task kind. is_value_of (C.case_at board.now.trust.cases task) kind) host) pass.mine ≡ true },
    ghost left: { 2 ^ 33 ≤ pass.left + claims + posts },
    ghost few: { claims ≤ 2 ^ 32 },
    ghost fewer: { tasks ≤ claims },
    ghost fewest: { posts + unwrap_or (option_map (λ _. 1) pending) 0 ≤ tasks },
}

impl<'a, W: Wait, C: Cases + Drop, A: Admission> LocalBench<'a, W, C, A> {
    /// A bench of this host. The pass has made no call yet, and may make two for each claim.
    pub fn new(
        rt: &'a W,
        board: &'a Board<Proved<C>, A>,
        pass: Pass<A>,
        host: Name,
    ) -> LocalBench<'a, W, C, A>
        requires board { pass.board ≡ board.now.id }
        requires fresh { pass.mine ≡ [] }
        requires left { 2 ^ 33 ≤ pass.left }
        ensures pass { result.pass ≡ pass }
        ensures board { result.board.now ≡ board.now }
        ensures host { result.host ≡ host }
        ensures claims { result.claims ≡ 0 }
        ensures tasks { result.tasks ≡ 0 }
        ensures posts { result.posts ≡ 0 }
        ensures heard { heard_at_claim result.heard ≡ None }
        ensures pending { result.pending ≡ None }
    {
        LocalBench {
            rt,
            board,
            pass,
            host,
            claims: 0,
            tasks: 0,
            posts: 0,
            heard: Claimed::Task(Task {
                judging: 1,
                test: 1,
            }),
            pending: None,
        }
    }

    /// The pass, whose entries are claims of the host, and results of it that are the values of their cases.
    pub fn end(self) -> Pass<A>
        ensures pass { result ≡ at_rest self.entry.pass }
        ensures board { result.board ≡ self.entry.board.now.id }
        ensures own { list_all (is_host_entry (λ task kind. is_value_of (C.case_at self.entry.board.now.trust.cases task) kind) self.entry.host) result.mine ≡ true }
    {
        let LocalBench {
            board,
            mut pass,
            ..
        } = self;
        board.let_go(&mut pass);
        pass
    }
}

impl<'a, W: Wait, C: Cases + Drop, A: Admission> Bench for LocalBench<'a, W, C, A> {
    ghost use Rattle.farm_board.specs.Benches.{BenchIdentity};

    ghost Fixed = { BenchIdentity };

    ghost fixed = { λ b. record { host = b.host; board = b.board.now.id; case_at = C.case_at b.board.now.trust.cases; number = b.pass.number; spare = b.pass.spare } };

    ghost pending = { λ b. pending_case (C.case_at b.board.now.trust.cases) b.pending };

    ghost faults = { λ b. link_faults };

    ghost claims = { λ b. b.claims };

    ghost tasks = { λ b. b.tasks };

    ghost posts = { λ b. b.posts };

    ghost heard = { λ b. heard_at_claim b.heard };

    ghost sound = { λ b. ⊤ };

    /// Claims a task of the board: one call of it, whose reply is answered.
    fn claim(&mut self) -> Claimed
        requires room { self.old.claims < 2 ^ 32 }
        ensures once { ClaimsOnce (C.case_at self.old.board.now.trust.cases) self.old.host self.old.pass self.new.pass result }
        ensures turn { self.new.pass.kept ≡ false }
        ensures claims { self.new.claims ≡ self.old.claims + 1 }
        ensures tasks { self.new.tasks ≡ self.old.tasks + tasks_in result }
        ensures posts { self.new.posts ≡ self.old.posts }
        ensures pending { IsPending result (pending_case (C.case_at self.new.board.now.trust.cases) self.new.pending) }
        ensures heard { heard_at_claim self.new.heard ≡ heard_at_claim result }
        ensures later { link_faults ≤ link_faults }
        ensures link { result ≡ Claimed.Refused BenchFault.Link → Rose link_faults link_faults }
        ensures board { self.new.board ≡ self.old.board }
        ensures host { self.new.host ≡ self.old.host }
        ensures number { self.new.pass.number ≡ self.old.pass.number }
        ensures spare { self.new.pass.spare ≡ self.old.pass.spare }
    {
        let reply = self
            .board
            .step(self.rt, &mut self.pass, &Event::Claim { host: self.host });
        self.claims += 1;
        self.pending = None;
        self.heard = answer_to_claim(&self.board.trust().cases, reply);
        if let Claimed::Task(task) = self.heard {
            self.tasks += 1;
            self.pending = Some(task);
        }
        self.heard
    }

    fn case(&self, task: Task) -> Case<'_> {
        match self.board.trust().cases.case_of(task) {
            Some(case) => case,
            // The pending task has a case.
            None => unreachable!(),
        }
    }

    /// Posts a result to the board: one call of it, whose reply is answered. That another kind is kept is no answer.
    /// The next claim is made in the same turn: until then, or until the bench ends, no other pass is answered.
    fn post(&mut self, done: Done) -> Result<Reply, BenchFault>
        requires value { (c : TestCase) × (pending_case (C.case_at self.old.board.now.trust.cases) self.old.pending ≡ Some (done.task, c)) × (done.kind ≡ case_value c) }
        ensures once { PostsOnce self.old.host done.task done.kind self.old.pass self.new.pass result }
        ensures turn { self.new.pass.kept ≡ true }
        ensures agrees { (kept given : KindValue) → result ≢ Ok (replies.Differs kept given) }
        ensures claims { self.new.claims ≡ self.old.claims }
        ensures tasks { self.new.tasks ≡ self.old.tasks }
        ensures posts { self.new.posts ≡ self.old.posts + 1 }
        ensures pending { self.new.pending ≡ None }
        ensures heard { heard_at_claim self.new.heard ≡ heard_at_post result }
        ensures later { link_faults ≤ link_faults }
        ensures link { result ≡ Err BenchFault.Link → Rose link_faults link_faults }
        ensures no_host { (name : List ℕ) → result ≢ Ok (replies.NoHost name) }
        ensures no_memory { result ≢ Ok replies.NoMemory }
        ensures board { self.new.board ≡ self.old.board }
        ensures host { self.new.host ≡ self.old.host }
        ensures number { self.new.pass.number ≡ self.old.pass.number }
        ensures spare { self.new.pass.spare ≡ self.old.pass.spare }
    {
        let task = done.task();
        let reply = self.board.step_and_keep(
            self.rt,
            &mut self.pass,
            &Event::Result {
                host: self.host,
                judging: task.judging,
                test: task.test as u32,
                kind: done.kind(),
            },
        );
        self.posts += 1;
        self.pending = None;
        let answered = answer_to_result(reply);
        self.heard = match &answered {
            Ok(_) => Claimed::Task(task),
            Err(fault) => Claimed::Refused(*fault),
        };
        answered
    }
}

/// What a bench with these cases makes of the reply to a claim.
fn answer_to_claim<C: Cases>(cases: &C, reply: Reply) -> Claimed
    ensures { result ≡ claimed_by (C.case_at cases.now) reply }
{
    match reply {
        Reply::Handed { task, .. } => match cases.case_of(task) {
            Some(_) => Claimed::Task(task),
            None => Claimed::Refused(BenchFault::NoCase { task }),
        },
        Reply::Nothing => Claimed::Nothing,
        Reply::Holding { .. } => Claimed::Refused(BenchFault::Holding),
        Reply::NoMemory => Claimed::Refused(BenchFault::NoMemory),
        _ => Claimed::Refused(BenchFault::NoHost),
    }
}

/// What a bench makes of the reply to a result.
fn answer_to_result(reply: Reply) -> Result<Reply, BenchFault>
    ensures { result ≡ posted_by reply }
{
    match reply {
        Reply::NoHost { .. } => Err(BenchFault::NoHost),
        Reply::NoMemory => Err(BenchFault::NoMemory),
        reply => Ok(reply),
    }
}
