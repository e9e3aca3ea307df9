ghost use Rattle.std.specs.Prelude.{◌≡◌, ◌+◌, ◌<◌, ◌≤◌, IfOk, IsTrue};
ghost use Rattle.std.specs.VecDeque.{deque_len, deque_capacity};
ghost use Rattle.farm_io.specs.Streams.{Rose};
ghost use Rattle.contest_server.specs.Texts.{HasCauseTold};
ghost use Rattle.contest_server.specs.Lanes.{starts_of, AreLanes};
ghost use Rattle.contest_server.specs.Serving.{desk_value, share, IsOrderly, AcceptsNext, MakesRoom, ServesNext, HasCauseNext};

use crate::desk::Desk;
use crate::freeing::free_place;
use crate::lanes::begin;
use crate::lines::TextFault;
use crate::returning::{tell_ended, tell_next};
use crate::service::{Service, Watches};
use case_run::Cases;
use contest_page::Shows;
use farm_board::{Admission, Pass};
use farm_io::{Accepted, Clock, Door, Sink};
use judge_feed::Naming;
use std::sync::Wait;
use std::thread::{Scope, Threads};

/// How many calls the pass of a connection may make: more than its requests can need. Those that it has not made go back
/// to the opening pass when it is taken in.
const SHARE: u64 = 1 << 42;

/// What came of asking the door for a connection.
#[derive(Clone, Copy, Debug, PartialEq, Eq)]
pub(crate) enum Coming {
    /// A connection came, and is being served.
    Conn,
    /// No connection is left to come.
    End,
    /// The door failed.
    Failed,
}

/// Asks the door for a connection, and begins to serve it.
fn accept_next<
    's,
    E,
    R: Threads + Wait + Sync,
    D: Door,
    K: Sink,
    A: Admission + Send + Sync,
    C: Clock + Sync,
    Q: Cases + Shows + Sync,
    J: Naming + Send + Sync,
>(
    service: &Service<'s, R, A, C, Q, J>,
    scope: &Scope<'s, E>,
    desk: &mut Desk<'_, '_, '_, D, K, A, C, Q, J>,
    count: u64,
) -> Coming
where
    D::Conn: Drop + 's,
    requires named { service.now.board.now.id ≡ J.board }
    requires orderly { IsOrderly (⟦<Service<'s, R, A, C, Q, J> as Watches<D::Conn>>⟧.watched service.now) service.now.board.now.id
        (desk_value (D.state desk.old.door.now) desk.old.pass.now (starts_of desk.old.lanes.items)) }
    requires lanes { AreLanes (⟦<Service<'s, R, A, C, Q, J> as Watches<D::Conn>>⟧.watched service.now)
        service.now.clock.now service.now.cases.now desk.old.lanes.items }
    requires room { deque_len desk.old.lanes < deque_capacity desk.old.lanes }
    requires spare { 0 < desk.old.pass.now.spare }
    requires left { share + deque_len desk.old.lanes + 3 < desk.old.pass.now.left }
    ensures accepts { AcceptsNext (⟦<Service<'s, R, A, C, Q, J> as Watches<D::Conn>>⟧.watched service.now) service.now.board.now.id
        (desk_value (D.state desk.old.door.now) desk.old.pass.now (starts_of desk.old.lanes.items))
        (desk_value (D.state desk.new.door.now) desk.new.pass.now (starts_of desk.new.lanes.items)) result }
    ensures lanes { AreLanes (⟦<Service<'s, R, A, C, Q, J> as Watches<D::Conn>>⟧.watched service.now)
        service.now.clock.now service.now.cases.now desk.new.lanes.items }
    ensures later { D.faults desk.old.door.now ≤ D.faults desk.new.door.now }
    ensures failed { result ≡ Coming.Failed → Rose (D.faults desk.old.door.now) (D.faults desk.new.door.now) }
    ensures out { desk.new.out.now ≡ desk.old.out.now }
    ensures same { (desk.new.door.ghost_name ≡ desk.old.door.ghost_name) × (desk.new.out.ghost_name ≡ desk.old.out.ghost_name)
        × (desk.new.pass.ghost_name ≡ desk.old.pass.ghost_name) }
{
    match desk.door.accept() {
        Accepted::Conn(conn) => {
            let own = service.board.split(service.rt, desk.pass, SHARE);
            let place = desk.places.take(count);
            let lane = begin(service, scope, place, own, conn);
            desk.lanes.push_back_reserved(lane);
            Coming::Conn
        }
        Accepted::End => Coming::End,
        Accepted::Failed => Coming::Failed,
    }
}

/// Takes in the connections that have ended, as far as their turn has come, and writes their lines. Where as many as may
/// wait for that, the one that was accepted first is waited for.
fn make_room<
    's,
    R: Threads + Wait,
    D: Door,
    K: Sink,
    A: Admission,
    C: Clock,
    Q: Cases + Shows,
    J: Naming,
>(
    service: &Service<'s, R, A, C, Q, J>,
    desk: &mut Desk<'_, '_, '_, D, K, A, C, Q, J>,
    count: u64,
) -> Result<(), TextFault>
where
    D::Conn: Drop,
    requires orderly { IsOrderly (⟦<Service<'s, R, A, C, Q, J> as Watches<D::Conn>>⟧.watched service.now) service.now.board.now.id
        (desk_value (D.state desk.old.door.now) desk.old.pass.now (starts_of desk.old.lanes.items)) }
    requires lanes { AreLanes (⟦<Service<'s, R, A, C, Q, J> as Watches<D::Conn>>⟧.watched service.now)
        service.now.clock.now service.now.cases.now desk.old.lanes.items }
    requires some { 0 < service.now.most }
    requires few { deque_len desk.old.lanes ≤ service.now.most }
    requires count { deque_len desk.old.lanes ≤ count }
    ensures makes { MakesRoom (⟦<Service<'s, R, A, C, Q, J> as Watches<D::Conn>>⟧.watched service.now) service.now.board.now.id
        (desk_value (D.state desk.old.door.now) desk.old.pass.now (starts_of desk.old.lanes.items))
        (desk_value (D.state desk.new.door.now) desk.new.pass.now (starts_of desk.new.lanes.items))
        (K.held desk.old.out.now) (K.held desk.new.out.now) count result }
    ensures room { IfOk result (λ _. deque_len desk.new.lanes < service.now.most) }
    ensures cause { HasCauseTold (K.faults desk.old.out.now) (K.faults desk.new.out.now) result }
    ensures lanes { AreLanes (⟦<Service<'s, R, A, C, Q, J> as Watches<D::Conn>>⟧.watched service.now)
        service.now.clock.now service.now.cases.now desk.new.lanes.items }
    ensures later { D.faults desk.old.door.now ≤ D.faults desk.new.door.now }
    ensures same { (desk.new.door.ghost_name ≡ desk.old.door.ghost_name) × (desk.new.out.ghost_name ≡ desk.old.out.ghost_name)
        × (desk.new.pass.ghost_name ≡ desk.old.pass.ghost_name) }
{
    tell_ended(service, desk, count)?;
    if desk.lanes.len() < usize::from(service.most) {
        return Ok(());
    }
    desk.door
        .ask_to_close(count.saturating_sub(desk.lanes.len() as u64));
    tell_next(service, desk, count)
}

/// Whether the calls that are left suffice for one more connection, beside those by which all are taken in, and the feed's.
fn has_calls<A: Admission>(pass: &Pass<A>, lanes: usize) -> bool
    ensures { IsTrue result → share + lanes + 3 < pass.now.left }
{
    pass.left().saturating_sub(SHARE + 3) > lanes as u64
}

/// Makes room for a connection, and begins to serve the next one, where `count` came before it and calls of the board
/// are left.
fn serve_ready<
    's,
    E,
    R: Threads + Wait + Sync,
    D: Door,
    K: Sink,
    A: Admission + Send + Sync,
    C: Clock + Sync,
    Q: Cases + Shows + Sync,
    J: Naming + Send + Sync,
>(
    service: &Service<'s, R, A, C, Q, J>,
    scope: &Scope<'s, E>,
    desk: &mut Desk<'_, '_, '_, D, K, A, C, Q, J>,
    count: u64,
) -> Result<Coming, TextFault>
where
    D::Conn: Drop + 's,
    requires named { service.now.board.now.id ≡ J.board }
    requires orderly { IsOrderly (⟦<Service<'s, R, A, C, Q, J> as Watches<D::Conn>>⟧.watched service.now) service.now.board.now.id
        (desk_value (D.state desk.old.door.now) desk.old.pass.now (starts_of desk.old.lanes.items)) }
    requires lanes { AreLanes (⟦<Service<'s, R, A, C, Q, J> as Watches<D::Conn>>⟧.watched service.now)
        service.now.clock.now service.now.cases.now desk.old.lanes.items }
    requires some { 0 < service.now.most }
    requires seats { desk.old.pass.now.spare + deque_len desk.old.lanes ≡ service.now.most }
    requires count { deque_len desk.old.lanes ≤ count }
    ensures serves { ServesNext (⟦<Service<'s, R, A, C, Q, J> as Watches<D::Conn>>⟧.watched service.now) service.now.board.now.id
        (desk_value (D.state desk.old.door.now) desk.old.pass.now (starts_of desk.old.lanes.items))
        (desk_value (D.state desk.new.door.now) desk.new.pass.now (starts_of desk.new.lanes.items))
        (K.held desk.old.out.now) (K.held desk.new.out.now) count result }
    ensures cause { HasCauseNext (D.faults desk.old.door.now) (D.faults desk.new.door.now) (K.faults desk.old.out.now) (K.faults desk.new.out.now) result }
    ensures lanes { AreLanes (⟦<Service<'s, R, A, C, Q, J> as Watches<D::Conn>>⟧.watched service.now)
        service.now.clock.now service.now.cases.now desk.new.lanes.items }
    ensures same { (desk.new.door.ghost_name ≡ desk.old.door.ghost_name) × (desk.new.out.ghost_name ≡ desk.old.out.ghost_name)
        × (desk.new.pass.ghost_name ≡ desk.old.pass.ghost_name) }
{
    make_room(service, desk, count)?;
    if desk.lanes.try_reserve(1).is_err() {
        return Err(TextFault::NoMemory);
    }
    if !has_calls(desk.pass, desk.lanes.len()) {
        return Err(TextFault::NoMemory);
    }
    Ok(accept_next(service, scope, desk, count))
}

/// Waits until a connection can be accepted and a worker is free, and serves it, where `count` came before it.
pub(crate) fn serve_next<
    's,
    E,
    R: Threads + Wait + Sync,
    D: Door,
    K: Sink,
    A: Admission + Send + Sync,
    C: Clock + Sync,
    Q: Cases + Shows + Sync,
    J: Naming + Send + Sync,
>(
    service: &Service<'s, R, A, C, Q, J>,
    scope: &Scope<'s, E>,
    desk: &mut Desk<'_, '_, '_, D, K, A, C, Q, J>,
    count: u64,
) -> Result<Coming, TextFault>
where
    D::Conn: Drop + 's,
    requires named { service.now.board.now.id ≡ J.board }
    requires orderly { IsOrderly (⟦<Service<'s, R, A, C, Q, J> as Watches<D::Conn>>⟧.watched service.now) service.now.board.now.id
        (desk_value (D.state desk.old.door.now) desk.old.pass.now (starts_of desk.old.lanes.items)) }
    requires lanes { AreLanes (⟦<Service<'s, R, A, C, Q, J> as Watches<D::Conn>>⟧.watched service.now)
        service.now.clock.now service.now.cases.now desk.old.lanes.items }
    requires some { 0 < service.now.most }
    requires seats { desk.old.pass.now.spare + deque_len desk.old.lanes ≡ service.now.most }
    requires count { deque_len desk.old.lanes ≤ count }
    ensures serves { ServesNext (⟦<Service<'s, R, A, C, Q, J> as Watches<D::Conn>>⟧.watched service.now) service.now.board.now.id
        (desk_value (D.state desk.old.door.now) desk.old.pass.now (starts_of desk.old.lanes.items))
        (desk_value (D.state desk.new.door.now) desk.new.pass.now (starts_of desk.new.lanes.items))
        (K.held desk.old.out.now) (K.held desk.new.out.now) count result }
    ensures cause { HasCauseNext (D.faults desk.old.door.now) (D.faults desk.new.door.now) (K.faults desk.old.out.now) (K.faults desk.new.out.now) result }
    ensures lanes { AreLanes (⟦<Service<'s, R, A, C, Q, J> as Watches<D::Conn>>⟧.watched service.now)
        service.now.clock.now service.now.cases.now desk.new.lanes.items }
    ensures same { (desk.new.door.ghost_name ≡ desk.old.door.ghost_name) × (desk.new.out.ghost_name ≡ desk.old.out.ghost_name)
        × (desk.new.pass.ghost_name ≡ desk.old.pass.ghost_name) }
{
    desk.door.await_next();
    free_place(service, desk, count);
    serve_ready(service, scope, desk, count)
}
