ghost use Rattle.std.specs.Prelude.{◌≡◌, ◌≤◌, ◌^◌, Some};
ghost use Rattle.farm_io.specs.Beside.{side};
ghost use Rattle.farm_api.specs.Serving.{untaken, IsServed, HasCauseServed, AnswersAll};
ghost use Rattle.farm_api.specs.Jobs.{gives_by};
ghost use Rattle.farm_api.specs.Exchanges.{around_of, giving};
ghost use Rattle.farm_api.specs.PassCalls.{PassSteps, MakesCalls};

use crate::ends::{ConnEnd, ConnHow};
use crate::jobs::write_case;
use crate::paths::Paths;
use crate::publishing::put_look;
use crate::replier::Replier;
use crate::serving::serve_on;
use case_run::Cases;
use contest_page::{ContestView, Shows};
use farm_board::{Admission, Anyone, Board, Pass};
use farm_io::{Clock, Peer, Sink, Source};
use farm_kinds::{Event, NoMemory, Reply, Text};
use http_door::ResponseFault;
use std::alloc::Global;
use std::sync::Wait;
use wire_job::JobPart;

/// Answers events by a board, each in its turn, on a pass, looks by asking for the board, and gives jobs of these cases
/// and the names that they show.
#[derive(Drop)]
struct BoardReplier<'a, W: Wait, A: Admission, Q: Cases> {
    rt: &'a W,
    board: &'a Board<Anyone, A>,
    cases: &'a Q,
}

impl<'a, W: Wait, A: Admission, Q: Cases + Shows> Replier for BoardReplier<'a, W, A, Q> {
    type State = Pass<A>;

    ghost suits = { λ r pass. pass.board ≡ r.board.now.id };

    ghost steps = { PassSteps };

    ghost left = { λ pass. pass.left };

    ghost gives = { λ r. gives_by (Q.case_at r.cases.now) (Q.shown r.cases.now) };

    fn step(&self, state: &mut Pass<A>, event: &Event) -> Reply {
        self.board.step(self.rt, state, event)
    }

    fn look(&self, _alloc: Global, state: &mut Pass<A>) -> Reply {
        self.board.step(self.rt, state, &Event::Board)
    }

    #[tactic(auto, using(crate::proofs::OneAnswer::look_put))]
    fn show<K: Sink>(
        &self,
        alloc: Global,
        state: &mut Pass<A>,
        closing: bool,
        sink: &mut K,
    ) -> Result<(), ResponseFault> {
        let look = self.board.step(self.rt, state, &Event::Board);
        put_look(alloc, sink, closing, &look)
    }

    fn job(
        &self,
        alloc: Global,
        part: JobPart,
        submission: u32,
        judging: u32,
        test: u32,
    ) -> Result<Option<Text>, NoMemory> {
        write_case(alloc, part, self.cases, submission, judging, test)
    }

    fn contest(&self) -> &ContestView {
        self.cases.view()
    }
}

/// Whether the other end may still say what nobody reads any more.
pub(crate) fn is_unheard(how: ConnHow) -> bool {
    matches!(how, ConnHow::BadRequest | ConnHow::InputLimit)
}

/// Answers the requests of a connection by calls of a board until it ends, one after the other, each by at most three
/// calls. Whoever is at its other end then sees that it has ended. The job of a judging is the case that `cases` have for
/// the first judging of its submission, whose number is the submission's; the names of the contest are those that they show.
pub fn serve_conn<W: Wait, A: Admission, Q: Cases + Shows, C: Clock, N: Source + Sink + Peer>(
    rt: &W,
    alloc: Global,
    paths: &Paths,
    pass: &mut Pass<A>,
    board: &Board<Anyone, A>,
    cases: &Q,
    conn: &mut N,
    clock: &C,
) -> ConnEnd
    requires board { pass.old.board ≡ board.now.id }
    requires calls { 2 ^ 42 ≤ pass.old.left }
    requires source { (n : N) → N.Source.beside n ≡ side (N.held n) (N.Sink.faults n) }
    requires sink { (n : N) → N.Sink.beside n ≡ side (N.left n) (N.Source.faults n) }
    ensures served { IsServed MakesCalls (giving (gives_by (Q.case_at cases.now) (Q.shown cases.now)) (around_of (C.shows clock.now) N.Peer.asks))
        (untaken pass.old (N.left conn.old) (N.held conn.old)) (untaken pass.new (N.left conn.new) (N.held conn.new))
        result.requests result.how }
    ensures cause { HasCauseServed (N.Source.faults conn.old) (N.Source.faults conn.new)
        (N.Sink.faults conn.old) (N.Sink.faults conn.new) (Some result.how) }
    ensures complete { AnswersAll N.Peer.asks (N.left conn.old) (N.Source.faults conn.old) (N.Source.faults conn.new)
        (N.Sink.faults conn.old) (N.Sink.faults conn.new) result.requests result.how }
{
    let replier = BoardReplier { rt, board, cases };
    let end = serve_on(alloc, paths, &replier, pass, clock, conn);
    conn.finish(is_unheard(end.how));
    end
}
