ghost use Rattle.std.specs.Prelude.{◌≡◌, ◌+◌, ◌<◌, ◌≤◌, []};
ghost use Rattle.std.specs.VecDeque.{deque_len};
ghost use Rattle.contest_server.specs.Lanes.{starts_of, AreLanes};
ghost use Rattle.contest_server.specs.Serving.{desk_value, IsOrderly, end_of, EndsWith, ServesAll, ServesLanes, HasCauseEnd};

use crate::accepting::{Coming, serve_next};
use crate::desk::Desk;
use crate::ends::ServeEnd;
use crate::lines::TextFault;
use crate::returning::{take_all, tell_all};
use crate::service::{Service, Watches};
use case_run::Cases;
use contest_page::Shows;
use farm_board::{Admission, Pass};
use farm_io::{Clock, Door, Sink};
use judge_feed::Naming;
use std::sync::Wait;
use std::thread::{Scope, Threads};

/// Takes in the connections that are being served, and writes their lines; then the serving ends as `end`, unless a
/// line was not written whole.
fn end_with<
    's,
    R: Threads + Wait,
    D: Door,
    K: Sink,
    A: Admission,
    C: Clock,
    Q: Cases + Shows,
    J: Naming,
>(
    service: &Service<'s, R, A, C, Q, J>,
    desk: &mut Desk<'_, '_, '_, D, K, A, C, Q, J>,
    count: u64,
    end: ServeEnd,
) -> ServeEnd
where
    D::Conn: Drop,
    requires orderly { IsOrderly (⟦<Service<'s, R, A, C, Q, J> as Watches<D::Conn>>⟧.watched service.now) service.now.board.now.id
        (desk_value (D.state desk.old.door.now) desk.old.pass.now (starts_of desk.old.lanes.items)) }
    requires lanes { AreLanes (⟦<Service<'s, R, A, C, Q, J> as Watches<D::Conn>>⟧.watched service.now)
        service.now.clock.now service.now.cases.now desk.old.lanes.items }
    requires count { deque_len desk.old.lanes ≤ count }
    ensures ends { EndsWith (⟦<Service<'s, R, A, C, Q, J> as Watches<D::Conn>>⟧.watched service.now) service.now.board.now.id
        (desk_value (D.state desk.old.door.now) desk.old.pass.now (starts_of desk.old.lanes.items))
        (desk_value (D.state desk.new.door.now) desk.new.pass.now (starts_of desk.new.lanes.items))
        (K.held desk.old.out.now) (K.held desk.new.out.now) (K.faults desk.old.out.now) (K.faults desk.new.out.now) count end result }
    ensures lanes { AreLanes (⟦<Service<'s, R, A, C, Q, J> as Watches<D::Conn>>⟧.watched service.now)
        service.now.clock.now service.now.cases.now desk.new.lanes.items }
    ensures later { D.faults desk.old.door.now ≤ D.faults desk.new.door.now }
    ensures same { (desk.new.door.ghost_name ≡ desk.old.door.ghost_name) × (desk.new.out.ghost_name ≡ desk.old.out.ghost_name)
        × (desk.new.pass.ghost_name ≡ desk.old.pass.ghost_name) }
{
    match tell_all(service, desk, count) {
        Ok(()) => end,
        Err(fault) => end_of(fault),
    }
}

/// The end where a text was not written whole.
pub(crate) fn end_of(fault: TextFault) -> ServeEnd
    ensures { result ≡ end_of fault }
{
    match fault {
        TextFault::WriteFault => ServeEnd::WriteFault,
        TextFault::NoMemory => ServeEnd::NoMemory,
    }
}

/// Serves at most `connections` connections, and writes their lines. Where a line was not written whole, connections
/// may still be served.
fn serve_all<
    's,
    E,
    R: Threads + Wait + Sync,
    D: Door,
    K: Sink,
    A: Admission + Send + Sync,
    C: Clock + Sync,
    Q: Cases + Shows + Sync,
    J: Naming + Send + Sync,
>(
    service: &Service<'s, R, A, C, Q, J>,
    scope: &Scope<'s, E>,
    desk: &mut Desk<'_, '_, '_, D, K, A, C, Q, J>,
    connections: u32,
) -> ServeEnd
where
    D::Conn: Drop + 's,
    requires named { service.now.board.now.id ≡ J.board }
    requires orderly { IsOrderly (⟦<Service<'s, R, A, C, Q, J> as Watches<D::Conn>>⟧.watched service.now) service.now.board.now.id
        (desk_value (D.state desk.old.door.now) desk.old.pass.now (starts_of desk.old.lanes.items)) }
    requires lanes { AreLanes (⟦<Service<'s, R, A, C, Q, J> as Watches<D::Conn>>⟧.watched service.now)
        service.now.clock.now service.now.cases.now desk.old.lanes.items }
    requires some { 0 < service.now.most }
    requires none { deque_len desk.old.lanes ≡ 0 }
    requires seats { desk.old.pass.now.spare ≡ service.now.most }
    ensures serves { ServesAll (⟦<Service<'s, R, A, C, Q, J> as Watches<D::Conn>>⟧.watched service.now) service.now.board.now.id
        (desk_value (D.state desk.old.door.now) desk.old.pass.now (starts_of desk.old.lanes.items))
        (desk_value (D.state desk.new.door.now) desk.new.pass.now (starts_of desk.new.lanes.items))
        (K.held desk.old.out.now) (K.held desk.new.out.now) connections result }
    ensures cause { HasCauseEnd (D.faults desk.old.door.now) (D.faults desk.new.door.now) (K.faults desk.old.out.now) (K.faults desk.new.out.now) result }
    ensures lanes { AreLanes (⟦<Service<'s, R, A, C, Q, J> as Watches<D::Conn>>⟧.watched service.now)
        service.now.clock.now service.now.cases.now desk.new.lanes.items }
    ensures same { (desk.new.door.ghost_name ≡ desk.old.door.ghost_name) × (desk.new.out.ghost_name ≡ desk.old.out.ghost_name)
        × (desk.new.pass.ghost_name ≡ desk.old.pass.ghost_name) }
{
    for i in 0..connections {
        match serve_next(service, scope, desk, i as u64) {
            Ok(Coming::Conn) => {}
            Ok(Coming::End) => return end_with(service, desk, i as u64, ServeEnd::Done),
            Ok(Coming::Failed) => return end_with(service, desk, i as u64, ServeEnd::DoorFault),
            Err(fault) => return end_of(fault),
        }
    }
    end_with(service, desk, connections as u64, ServeEnd::Done)
}

/// Serves at most `connections` connections, writes their lines, and takes in those whose line was not written.
fn serve_desk<
    's,
    E,
    R: Threads + Wait + Sync,
    D: Door,
    K: Sink,
    A: Admission + Send + Sync,
    C: Clock + Sync,
    Q: Cases + Shows + Sync,
    J: Naming + Send + Sync,
>(
    service: &Service<'s, R, A, C, Q, J>,
    scope: &Scope<'s, E>,
    desk: &mut Desk<'_, '_, '_, D, K, A, C, Q, J>,
    connections: u32,
) -> ServeEnd
where
    D::Conn: Drop + 's,
    requires named { service.now.board.now.id ≡ J.board }
    requires orderly { IsOrderly (⟦<Service<'s, R, A, C, Q, J> as Watches<D::Conn>>⟧.watched service.now) service.now.board.now.id
        (desk_value (D.state desk.old.door.now) desk.old.pass.now []) }
    requires some { 0 < service.now.most }
    requires empty { desk.old.lanes.items ≡ [] }
    requires none { deque_len desk.old.lanes ≡ 0 }
    requires seats { desk.old.pass.now.spare ≡ service.now.most }
    ensures serves { ServesLanes (⟦<Service<'s, R, A, C, Q, J> as Watches<D::Conn>>⟧.watched service.now) service.now.board.now.id
        (desk_value (D.state desk.old.door.now) desk.old.pass.now [])
        (desk_value (D.state desk.new.door.now) desk.new.pass.now [])
        (K.held desk.old.out.now) (K.held desk.new.out.now) connections result }
    ensures cause { HasCauseEnd (D.faults desk.old.door.now) (D.faults desk.new.door.now) (K.faults desk.old.out.now) (K.faults desk.new.out.now) result }
    ensures same { (desk.new.door.ghost_name ≡ desk.old.door.ghost_name) × (desk.new.out.ghost_name ≡ desk.old.out.ghost_name)
        × (desk.new.pass.ghost_name ≡ desk.old.pass.ghost_name) }
{
    let end = serve_all(service, scope, desk, connections);
    take_all(service, desk);
    end
}

/// Serves at most `connections` connections, and writes their lines.
pub(crate) fn serve_lanes<
    's,
    E,
    R: Threads + Wait + Sync,
    D: Door,
    K: Sink,
    A: Admission + Send + Sync,
    C: Clock + Sync,
    Q: Cases + Shows + Sync,
    J: Naming + Send + Sync,
>(
    service: &Service<'s, R, A, C, Q, J>,
    scope: &Scope<'s, E>,
    door: &mut D,
    out: &mut K,
    pass: &mut Pass<A>,
    connections: u32,
) -> ServeEnd
where
    D::Conn: Drop + 's,
    requires named { service.now.board.now.id ≡ J.board }
    requires orderly { IsOrderly (⟦<Service<'s, R, A, C, Q, J> as Watches<D::Conn>>⟧.watched service.now) service.now.board.now.id
        (desk_value (D.state door.old) pass.old []) }
    requires some { 0 < service.now.most }
    requires seats { pass.old.spare ≡ service.now.most }
    ensures serves { ServesLanes (⟦<Service<'s, R, A, C, Q, J> as Watches<D::Conn>>⟧.watched service.now) service.now.board.now.id
        (desk_value (D.state door.old) pass.old [])
        (desk_value (D.state door.new) pass.new [])
        (K.held out.old) (K.held out.new) connections result }
    ensures cause { HasCauseEnd (D.faults door.old) (D.faults door.new) (K.faults out.old) (K.faults out.new) result }
{
    let mut desk = Desk::new(service.alloc, door, out, pass);
    let end = serve_desk(service, scope, &mut desk, connections);
    // That these are the references that came is what the contracts above say.
    let Desk {
        door: lent_door,
        out: lent_out,
        pass: lent_pass,
        places: _,
        lanes: _,
    } = desk;
    let _ = lent_door;
    let _ = lent_out;
    let _ = lent_pass;
    end
}
