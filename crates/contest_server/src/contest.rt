ghost use Rattle.std.specs.Prelude.{◌≡◌, ◌<◌, ◌≤◌, ◌⊎◌, ◌+◌, ◌^◌, IfOk, List, true, false};
ghost use Rattle.farm_io.specs.Doors.{DoesListen};
ghost use Rattle.farm_io.specs.Streams.{Rose};
ghost use Rattle.farm_model.specs.State.{start};
ghost use Rattle.farm_kinds.specs.declared.events.Event.{Event as EventValue};
ghost use Rattle.farm_board.specs.Histories.{opening_board, IsOpening};
ghost use Rattle.judge_feed.specs.Refreshing.{IsFresh};
ghost use Rattle.contest_server.specs.Beside.{HasSplit};
ghost use Rattle.contest_server.specs.Contest.{entering_events, open_limit, seats, view_of};
ghost use Rattle.farm_api.specs.Exchanges.{around_of};
ghost use Rattle.contest_folder.specs.JudgingCases.{case_at};
ghost use Rattle.contest_server.specs.Visits.{watch, on_board};
ghost use Rattle.contest_server.specs.Serving.{HasCauseEnd};
ghost use Rattle.contest_server.specs.Served.{Serves};

use crate::boards::serve_board;
use crate::ends::ServeEnd;
use crate::public::Public;
use crate::service::Ground;
use crate::shown::Shown;
use contest_folder::Roster;
use farm_api::Paths;
use farm_board::{Admission, Anyone, Board, Pass};
use farm_core::Farm;
use farm_io::{Clock, Door, Sink};
use farm_kinds::NoMemory;
use judge_feed::{Feed, Naming};
use parallel_judge::{enter_problems, enter_submissions};
use std::alloc::Global;
use std::marker::Brand;
use std::sync::Wait;
use std::thread::Threads;

/// How many connections may wait for their line to be written, because one that came before them is still being served.
const UNTOLD: u16 = 8192;

/// How many calls the feed may make.
const FEED_SHARE: u64 = 1 << 60;

/// Serves a contest to the connections of a door, `connections` at the most. Each is served by a worker of its own as
/// soon as it was accepted, or by the caller where none can be started, and at most `lanes` at the same time: then they
/// are asked to close, the one that was accepted first at first and each a moment behind the one before it, until one has
/// ended, before the next is accepted.
/// Connections are given back to the door and their lines written in the order in which they came, each as soon as it and
/// all before it have ended and another one comes; behind the lines stands the text of `board`. Where 8,192 wait for
/// that, the one that was accepted first is waited for.
///
/// Each connection has a pass for 2^42 calls of the board, which is more than its requests can need, and gives back those
/// that it has not made. So the 2^62 calls of a board last for any number of connections. Where too few are left for one
/// more, the serving ends as where no memory is left.
///
/// Anybody is shown the names of the contest, and a page with what the public sees.
///
/// Where the door fails, the connections that were accepted are served and their lines written, but no board. Where a
/// text can't be written, they are served and given back.
pub fn serve_contest<R: Threads + Wait + Sync, D: Door, K: Sink, C: Clock + Sync>(
    rt: &R,
    alloc: Global,
    roster: &Roster,
    lanes: u16,
    connections: u32,
    clock: &C,
    door: &mut D,
    out: &mut K,
) -> ServeEnd
where
    D::Conn: Drop,
    requires lanes { (1 ≤ lanes) × (lanes ≤ 16) }
    requires door { (D.state door.old).returned ≤ (D.state door.old).accepted }
    requires listens { DoesListen (D.state door.old) }
    ensures serves { Serves (on_board (opening_board (start roster.now.settings) (seats lanes) false) (case_at roster.now) (view_of roster.now)
        (watch D.Conn.left D.Conn.held D.Conn.Source.faults D.Conn.Sink.faults (around_of (C.shows clock.now) D.Conn.Peer.asks)))
        (opening_board (start roster.now.settings) (seats lanes) false)
        (entering_events roster.now) (D.state door.old) (D.state door.new) (K.held out.old) (K.held out.new) connections result }
    ensures cause { HasCauseEnd (D.faults door.old) (D.faults door.new) (K.faults out.old) (K.faults out.new) result }
    ensures complete { ¬ Rose (D.faults door.old) (D.faults door.new) → ¬ Rose (K.faults out.old) (K.faults out.new)
        → (result ≡ ServeEnd.Done) ⊎ (result ≡ ServeEnd.NoMemory) }
{
    let Ok(paths) = Paths::new(alloc) else {
        return ServeEnd::NoMemory;
    };
    let Ok(shown) = Shown::of(alloc, roster) else {
        return ServeEnd::NoMemory;
    };
    let Ok((board, pass, own)) = open_board::<R, Brand>(rt, alloc, roster, lanes) else {
        return ServeEnd::NoMemory;
    };
    let ground = Ground {
        rt,
        alloc,
        paths: &paths,
        board: &board,
        clock,
        cases: &shown,
        workers: lanes,
        most: UNTOLD + lanes,
    };
    let end = serve_named::<R, D, K, Brand, C, Brand>(&ground, door, out, pass, own, connections);
    drop(board);
    end
}

/// Serves a contest on a board that it has entered, where what the public sees is published by the feed's pass.
fn serve_named<
    R: Threads + Wait + Sync,
    D: Door,
    K: Sink,
    A: Admission + Send + Sync,
    C: Clock + Sync,
    J: Naming + Send + Sync,
>(
    ground: &Ground<'_, R, A, C, Shown<'_>>,
    door: &mut D,
    out: &mut K,
    pass: Pass<A>,
    own: Pass<A>,
    connections: u32,
) -> ServeEnd
where
    D::Conn: Drop,
    requires lanes { (1 ≤ ground.now.workers) × (ground.now.workers ≤ 16) }
    requires door { (D.state door.old).returned ≤ (D.state door.old).accepted }
    requires listens { DoesListen (D.state door.old) }
    requires named { ground.now.board.now.id ≡ J.board }
    requires opening { IsOpening J.start }
    requires fresh { IsFresh J.board J.start J.number own }
    requires board { pass.board ≡ ground.now.board.now.id }
    requires some { 0 < ground.now.most }
    requires spare { pass.spare ≡ ground.now.most }
    requires left { 2 ^ 62 ≤ pass.left + 2 ^ 61 }
    ensures serves { (events : List EventValue) → HasSplit J.start events pass own
        → Serves (on_board J.start (case_at ground.now.cases.now.roster.now) ground.now.cases.now.view
        (watch D.Conn.left D.Conn.held D.Conn.Source.faults D.Conn.Sink.faults (around_of (C.shows ground.now.clock.now) D.Conn.Peer.asks)))
        J.start events (D.state door.old) (D.state door.new) (K.held out.old) (K.held out.new) connections result }
    ensures cause { HasCauseEnd (D.faults door.old) (D.faults door.new) (K.faults out.old) (K.faults out.new) result }
{
    match Feed::<A, J>::open(ground.rt, ground.alloc, ground.board, own, ground.workers) {
        Err(_own) => ServeEnd::NoMemory,
        Ok((feed, readers)) => serve_board(
            ground,
            Public::new(ground.alloc, feed, readers),
            door,
            out,
            pass,
            connections,
        ),
    }
}

/// A board with a seat for each lane, its opening pass, by which the contest has entered, and the pass of the feed.
fn open_board<W: Wait, A: Admission>(
    rt: &W,
    alloc: Global,
    roster: &Roster,
    lanes: u16,
) -> Result<(Board<Anyone, A>, Pass<A>, Pass<A>), NoMemory>
    requires named { A.admits ≡ (λ task kind. true) }
    requires lanes { lanes ≤ 16 }
    ensures board { IfOk result (λ opened. opened.1.board ≡ opened.0.id) }
    ensures spare { IfOk result (λ opened. opened.1.spare ≡ open_limit lanes) }
    ensures left { IfOk result (λ opened. 2 ^ 62 ≤ opened.1.left + 2 ^ 61) }
    ensures entered { IfOk result (λ opened. HasSplit (opening_board (start roster.now.settings) (seats lanes) false)
        (entering_events roster.now) opened.1 opened.2) }
    ensures fresh { IfOk result (λ opened. IsFresh opened.0.id (opening_board (start roster.now.settings) (seats lanes) false) opened.2.number opened.2) }
{
    let farm = Farm::new(alloc, roster.settings().copy()?);
    let (board, mut pass) = Board::<Anyone, A>::new(
        alloc,
        farm,
        Anyone,
        UNTOLD + lanes + 2,
        false,
    )?;
    enter_problems(rt, &board, &mut pass, roster)?;
    enter_submissions(rt, &board, &mut pass, roster)?;
    let own = board.split(rt, &mut pass, FEED_SHARE);
    Ok((board, pass, own))
}
