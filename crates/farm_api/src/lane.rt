ghost use Rattle.std.specs.Prelude.{◌≡◌, ◌≤◌, ◌^◌, Some};
ghost use Rattle.farm_io.specs.Beside.{side};
ghost use Rattle.farm_api.specs.Serving.{untaken, IsServed, HasCauseServed, AnswersAll};
ghost use Rattle.farm_api.specs.Jobs.{gives_by};
ghost use Rattle.farm_api.specs.Exchanges.{around_of, giving};
ghost use Rattle.farm_api.specs.LaneCalls.{LaneSteps, LaneMakes};

use crate::access::Access;
use crate::calling::is_unheard;
use crate::ends::ConnEnd;
use crate::following::{change_by, publish};
use crate::jobs::write_case;
use crate::paths::Paths;
use crate::replier::Replier;
use crate::serving::serve_on;
use case_run::Cases;
use contest_page::{ContestView, Shows};
use farm_board::{Admission, Anyone, Board};
use farm_io::{Clock, Peer, Sink, Source};
use farm_kinds::{Answers, Event, NoMemory, Reply, Text};
use http_door::ResponseFault;
use judge_feed::{Feed, Naming};
use std::alloc::Global;
use std::sync::{Mutex, Wait};
use wire_job::JobPart;

/// Answers events by a board, each in its turn, and has a feed publish what follows from them for the public; gives for a
/// look what the feed has published, without waiting; and gives jobs of these cases and the names that they show.
#[derive(Drop)]
struct LaneReplier<'a, W: Wait, A: Admission, Q: Cases, J: Naming> {
    rt: &'a W,
    alloc: Global,
    board: &'a Board<Anyone, A>,
    cases: &'a Q,
    feed: &'a Mutex<Feed<A, J>>,
}

impl<'a, W: Wait, A: Admission, Q: Cases + Shows, J: Naming> Replier
    for LaneReplier<'a, W, A, Q, J> {
    type State = Access<A, J>;

    ghost suits = { λ r access. (access.pass.board ≡ r.board.now.id) × (r.board.now.id ≡ J.board) };

    ghost steps = { LaneSteps J.start };

    ghost left = { λ access. access.pass.left };

    ghost gives = { λ r. gives_by (Q.case_at r.cases.now) (Q.shown r.cases.now) };

    /// The feed is asked for only where the pass has no turn of the board: two lanes would else wait for each other.
    fn step(&self, state: &mut Access<A, J>, event: &Event) -> Reply {
        let reply = self.board.step(self.rt, &mut state.pass, event);
        let change = change_by(event, &reply);
        if let Some(note) = publish(self.rt, self.alloc, self.board, self.feed, change) {
            state.reader.learn(&note);
        }
        reply
    }

    fn look(&self, alloc: Global, state: &mut Access<A, J>) -> Reply {
        match state.reader.rows(alloc) {
            Ok(rows) => Reply::Board {
                rows: Answers::from_vec(rows),
            },
            Err(_) => Reply::NoMemory,
        }
    }

    #[tactic(auto, using(crate::proofs::LaneLemmas::lane_put))]
    fn show<K: Sink>(
        &self,
        alloc: Global,
        state: &mut Access<A, J>,
        closing: bool,
        sink: &mut K,
    ) -> Result<(), ResponseFault> {
        state.reader.put(alloc, closing, sink)
    }

    fn job(
        &self,
        alloc: Global,
        part: JobPart,
        submission: u32,
        judging: u32,
        test: u32,
    ) -> Result<Option<Text>, NoMemory> {
        write_case(alloc, part, self.cases, submission, judging, test)
    }

    fn contest(&self) -> &ContestView {
        self.cases.view()
    }
}

/// Answers the requests of a connection until it ends, one after the other, each by at most three calls of a board. What
/// the public sees is what the feed of this board has published, which is read without waiting; behind each answer by
/// which it may change the feed publishes it anew, before the response is written. Whoever is at the other end of the
/// connection then sees that it has ended. The job of a judging is the case that `cases` have for the first judging of its
/// submission, whose number is the submission's.
pub fn serve_lane<
    W: Wait,
    A: Admission,
    Q: Cases + Shows,
    J: Naming,
    C: Clock,
    N: Source + Sink + Peer,
>(
    rt: &W,
    alloc: Global,
    paths: &Paths,
    access: &mut Access<A, J>,
    board: &Board<Anyone, A>,
    cases: &Q,
    feed: &Mutex<Feed<A, J>>,
    conn: &mut N,
    clock: &C,
) -> ConnEnd
    requires board { access.old.pass.board ≡ board.now.id }
    requires named { board.now.id ≡ J.board }
    requires calls { 2 ^ 42 ≤ access.old.pass.left }
    requires source { (n : N) → N.Source.beside n ≡ side (N.held n) (N.Sink.faults n) }
    requires sink { (n : N) → N.Sink.beside n ≡ side (N.left n) (N.Source.faults n) }
    ensures served { IsServed (LaneMakes J.start) (giving (gives_by (Q.case_at cases.now) (Q.shown cases.now)) (around_of (C.shows clock.now) N.Peer.asks))
        (untaken access.old (N.left conn.old) (N.held conn.old)) (untaken access.new (N.left conn.new) (N.held conn.new))
        result.requests result.how }
    ensures cause { HasCauseServed (N.Source.faults conn.old) (N.Source.faults conn.new)
        (N.Sink.faults conn.old) (N.Sink.faults conn.new) (Some result.how) }
    ensures complete { AnswersAll N.Peer.asks (N.left conn.old) (N.Source.faults conn.old) (N.Source.faults conn.new)
        (N.Sink.faults conn.old) (N.Sink.faults conn.new) result.requests result.how }
{
    let replier = LaneReplier {
        rt,
        alloc,
        board,
        cases,
        feed,
    };
    let end = serve_on(alloc, paths, &replier, access, clock, conn);
    conn.finish(is_unheard(end.how));
    end
}
