ghost use Rattle.std.specs.Prelude.{◌≡◌, ◌≢◌, ◌<◌, [], List};
ghost use Rattle.std.specs.Bool.{OnTrue, OnFalse};
ghost use Rattle.farm_kinds.specs.declared.events.Event.{Event as EventValue};
ghost use Rattle.farm_board.specs.BoardState.{BoardState};
ghost use Rattle.farm_board.specs.Histories.{IsOpening};
ghost use Rattle.farm_api.specs.Exchanges.{around_of};
ghost use Rattle.contest_server.specs.Visits.{watch, on_board};
ghost use Rattle.contest_server.specs.Serving.{desk_value, IsOrderly, ServesLanes, HasCauseEnd};
ghost use Rattle.farm_board.specs.Passes.{PassValue};
ghost use Rattle.contest_server.specs.Beside.{HasSplit};
ghost use Rattle.contest_server.specs.Served.{HasServed, ShowsBoard, Finishes};

use crate::bell::Bell;
use crate::ends::ServeEnd;
use crate::lines::put_text;
use crate::public::Public;
use crate::service::{Ground, Service, Watches};
use crate::serving::{end_of, serve_lanes};
use case_run::Cases;
use command_text::push_reply;
use contest_page::Shows;
use farm_board::{Admission, Anyone, Board, Pass};
use farm_io::{Clock, Door, Sink};
use farm_kinds::{Event, Reply};
use judge_feed::Naming;
use std::alloc::Global;
use std::sync::Wait;
use std::thread;
use std::thread::Threads;

/// Serves at most `connections` connections, each by a worker of its own, and hands the pass back.
fn serve_in_scope<
    's,
    R: Threads + Wait + Sync,
    D: Door,
    K: Sink,
    A: Admission + Send + Sync,
    C: Clock + Sync,
    Q: Cases + Shows + Sync,
    J: Naming + Send + Sync,
>(
    service: &Service<'s, R, A, C, Q, J>,
    door: &mut D,
    out: &mut K,
    pass: Pass<A>,
    connections: u32,
) -> (Pass<A>, ServeEnd)
where
    D::Conn: Drop,
    requires named { service.now.board.now.id ≡ J.board }
    requires orderly { IsOrderly (⟦<Service<'s, R, A, C, Q, J> as Watches<D::Conn>>⟧.watched service.now) service.now.board.now.id
        (desk_value (D.state door.old) pass []) }
    requires some { 0 < service.now.most }
    requires seats { pass.spare ≡ service.now.most }
    ensures serves { ServesLanes (⟦<Service<'s, R, A, C, Q, J> as Watches<D::Conn>>⟧.watched service.now) service.now.board.now.id
        (desk_value (D.state door.old) pass [])
        (desk_value (D.state door.new) result.0 [])
        (K.held out.old) (K.held out.new) connections result.1 }
    ensures cause { HasCauseEnd (D.faults door.old) (D.faults door.new) (K.faults out.old) (K.faults out.new) result.1 }
{
    let (lent_door, lent_out, pass, end) = thread::scope(
        thread::scope_env(),
        service.rt,
        |scope| -> (&mut D, &mut K, Pass<A>, ServeEnd)
            requires orderly { IsOrderly (on_board J.start (Q.case_at service.now.cases.now) (Q.shown service.now.cases.now)
                (watch D.Conn.left D.Conn.held D.Conn.Source.faults D.Conn.Sink.faults
                (around_of (C.shows service.now.clock.now) D.Conn.Peer.asks)))
                service.now.board.now.id
                (desk_value (D.state door.now) pass []) }
            requires named { service.now.board.now.id ≡ J.board }
            requires some { 0 < service.now.most }
            requires seats { pass.spare ≡ service.now.most }
            ensures { (result.0.ghost_name ≡ door.entry.ghost_name) × (result.1.ghost_name ≡ out.entry.ghost_name)
                × ServesLanes (on_board J.start (Q.case_at service.entry.now.cases.now) (Q.shown service.entry.now.cases.now)
                (watch D.Conn.left D.Conn.held D.Conn.Source.faults D.Conn.Sink.faults
                (around_of (C.shows service.entry.now.clock.now) D.Conn.Peer.asks)))
                service.entry.now.board.now.id
                (desk_value (D.state door.entry.now) pass []) (desk_value (D.state result.0.now) result.2 [])
                (K.held out.entry.now) (K.held result.1.now) connections result.3
                × HasCauseEnd (D.faults door.entry.now) (D.faults result.0.now) (K.faults out.entry.now) (K.faults result.1.now) result.3 }
        {
            let mut pass = pass;
            let end = serve_lanes(service, scope, door, out, &mut pass, connections);
            (door, out, pass, end)
        },
    );
    let _ = lent_door;
    let _ = lent_out;
    (pass, end)
}

/// Whether all was done. For the proof alone: a function of its own, so that it is known which way was taken.
fn is_done(end: ServeEnd) -> bool
    ensures done { OnTrue result (end ≡ ServeEnd.Done) }
    ensures other { OnFalse result (end ≢ ServeEnd.Done) }
{
    matches!(end, ServeEnd::Done)
}

/// Asks for `board`, and writes its text.
fn show_board<W: Wait, K: Sink, A: Admission>(
    rt: &W,
    alloc: Global,
    board: &Board<Anyone, A>,
    pass: &mut Pass<A>,
    out: &mut K,
) -> ServeEnd
    requires board { pass.old.board ≡ board.now.id }
    requires left { 0 < pass.old.left }
    ensures shows { ShowsBoard pass.old pass.new (K.held out.old) (K.held out.new) (K.faults out.old) (K.faults out.new) result }
{
    let reply = board.step(rt, pass, &Event::Board);
    if matches!(reply, Reply::NoMemory) {
        return ServeEnd::NoMemory;
    }
    let mut text = Vec::new(alloc);
    if push_reply(&mut text, &reply).is_err() {
        return ServeEnd::NoMemory;
    }
    match put_text(out, text.as_slice()) {
        Ok(()) => ServeEnd::Done,
        Err(fault) => end_of(fault),
    }
}

/// Takes in the feed's pass, once all connections were served and so it ended, and behind their lines writes the text of
/// `board`.
fn finish<W: Wait, K: Sink, A: Admission>(
    rt: &W,
    alloc: Global,
    board: &Board<Anyone, A>,
    mut pass: Pass<A>,
    own: Pass<A>,
    end: ServeEnd,
    out: &mut K,
) -> ServeEnd
    requires board { (pass.board ≡ board.now.id) × (own.board ≡ board.now.id) }
    requires left { 1 < pass.left }
    ensures finishes { Finishes pass own (K.held out.old) (K.held out.new) (K.faults out.old) (K.faults out.new) end result }
{
    board.join(rt, &mut pass, own);
    if is_done(end) {
        return show_board(rt, alloc, board, &mut pass, out);
    }
    end
}

/// Serves at most `connections` connections on a board that the contest has entered, where what the public sees is
/// published, and writes their lines and behind them the text of `board`.
pub(crate) fn serve_board<
    R: Threads + Wait + Sync,
    D: Door,
    K: Sink,
    A: Admission + Send + Sync,
    C: Clock + Sync,
    Q: Cases + Shows + Sync,
    J: Naming + Send + Sync,
>(
    ground: &Ground<'_, R, A, C, Q>,
    public: Public<A, J>,
    door: &mut D,
    out: &mut K,
    pass: Pass<A>,
    connections: u32,
) -> ServeEnd
where
    D::Conn: Drop,
    requires named { ground.now.board.now.id ≡ J.board }
    requires orderly { IsOrderly (on_board J.start (Q.case_at ground.now.cases.now) (Q.shown ground.now.cases.now)
        (watch D.Conn.left D.Conn.held D.Conn.Source.faults D.Conn.Sink.faults (around_of (C.shows ground.now.clock.now) D.Conn.Peer.asks)))
        ground.now.board.now.id (desk_value (D.state door.old) pass []) }
    requires some { 0 < ground.now.most }
    requires seats { pass.spare ≡ ground.now.most }
    ensures served { (start : BoardState) (events : List EventValue) (own : PassValue) → IsOpening start → own.number ≡ J.number → HasSplit start events pass own
        → HasServed (on_board J.start (Q.case_at ground.now.cases.now) (Q.shown ground.now.cases.now)
        (watch D.Conn.left D.Conn.held D.Conn.Source.faults D.Conn.Sink.faults (around_of (C.shows ground.now.clock.now) D.Conn.Peer.asks)))
        start events (D.state door.old) (D.state door.new) (K.held out.old) (K.held out.new) connections result }
    ensures cause { HasCauseEnd (D.faults door.old) (D.faults door.new) (K.faults out.old) (K.faults out.new) result }
{
    let Ground {
        rt,
        alloc,
        paths,
        board,
        clock,
        cases,
        workers,
        most,
    } = *ground;
    let bell = Bell::new();
    let service = Service {
        rt,
        alloc,
        paths,
        board,
        clock,
        cases,
        public: &public,
        bell: &bell,
        workers,
        most,
    };
    let (pass, end) = serve_in_scope(&service, door, out, pass, connections);
    let own = public.end(rt);
    finish(rt, alloc, board, pass, own, end, out)
}
