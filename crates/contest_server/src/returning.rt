ghost use Rattle.std.specs.Prelude.{◌≡◌, ◌<◌, ◌≤◌};
ghost use Rattle.std.specs.VecDeque.{deque_len};
ghost use Rattle.contest_server.specs.Texts.{HasCauseTold};
ghost use Rattle.contest_server.specs.Lanes.{starts_of, AreLanes};
ghost use Rattle.contest_server.specs.Serving.{desk_value, IsOrderly, TakesFirst, TellsFirst, TakesAll, TellsAll, TellsSome};

use crate::desk::Desk;
use crate::lanes::{Served, Worker, end, is_settled};
use crate::lines::{TextFault, write_line};
use crate::service::{Service, Watches};
use case_run::Cases;
use contest_page::Shows;
use farm_api::ConnEnd;
use farm_board::Admission;
use farm_io::{Clock, Door, Peer, Sink, Source};
use judge_feed::Naming;
use std::collections::VecDeque;
use std::sync::Wait;
use std::thread::Threads;

/// Waits for the connection that was accepted first among those that are being served, takes its pass in, and gives it
/// back.
fn take_in<
    's,
    R: Threads + Wait,
    D: Door,
    K: Sink,
    A: Admission,
    C: Clock,
    Q: Cases + Shows,
    J: Naming,
>(service: &Service<'s, R, A, C, Q, J>, desk: &mut Desk<'_, '_, '_, D, K, A, C, Q, J>) -> ConnEnd
where
    D::Conn: Drop,
    requires orderly { IsOrderly (⟦<Service<'s, R, A, C, Q, J> as Watches<D::Conn>>⟧.watched service.now) service.now.board.now.id
        (desk_value (D.state desk.old.door.now) desk.old.pass.now (starts_of desk.old.lanes.items)) }
    requires lanes { AreLanes (⟦<Service<'s, R, A, C, Q, J> as Watches<D::Conn>>⟧.watched service.now)
        service.now.clock.now service.now.cases.now desk.old.lanes.items }
    requires some { 0 < deque_len desk.old.lanes }
    ensures takes { TakesFirst (⟦<Service<'s, R, A, C, Q, J> as Watches<D::Conn>>⟧.watched service.now) service.now.board.now.id
        (desk_value (D.state desk.old.door.now) desk.old.pass.now (starts_of desk.old.lanes.items))
        (desk_value (D.state desk.new.door.now) desk.new.pass.now (starts_of desk.new.lanes.items)) result }
    ensures lanes { AreLanes (⟦<Service<'s, R, A, C, Q, J> as Watches<D::Conn>>⟧.watched service.now)
        service.now.clock.now service.now.cases.now desk.new.lanes.items }
    ensures later { D.faults desk.old.door.now ≤ D.faults desk.new.door.now }
    ensures out { desk.new.out.now ≡ desk.old.out.now }
    ensures same { (desk.new.door.ghost_name ≡ desk.old.door.ghost_name) × (desk.new.out.ghost_name ≡ desk.old.out.ghost_name)
        × (desk.new.pass.ghost_name ≡ desk.old.pass.ghost_name) }
{
    let Some(lane) = desk.lanes.pop_front() else {
        unreachable!()
    };
    let Served {
        conn,
        pass: from,
        end,
    } = end(service, lane);
    service.board.join(service.rt, desk.pass, from);
    desk.door.give_back(conn);
    end
}

/// Waits for the connection that was accepted first among those that are being served, takes it in, and writes its
/// line, where `count` connections came.
pub(crate) fn tell_next<
    's,
    R: Threads + Wait,
    D: Door,
    K: Sink,
    A: Admission,
    C: Clock,
    Q: Cases + Shows,
    J: Naming,
>(
    service: &Service<'s, R, A, C, Q, J>,
    desk: &mut Desk<'_, '_, '_, D, K, A, C, Q, J>,
    count: u64,
) -> Result<(), TextFault>
where
    D::Conn: Drop,
    requires orderly { IsOrderly (⟦<Service<'s, R, A, C, Q, J> as Watches<D::Conn>>⟧.watched service.now) service.now.board.now.id
        (desk_value (D.state desk.old.door.now) desk.old.pass.now (starts_of desk.old.lanes.items)) }
    requires lanes { AreLanes (⟦<Service<'s, R, A, C, Q, J> as Watches<D::Conn>>⟧.watched service.now)
        service.now.clock.now service.now.cases.now desk.old.lanes.items }
    requires some { 0 < deque_len desk.old.lanes }
    requires count { deque_len desk.old.lanes ≤ count }
    ensures tells { TellsFirst (⟦<Service<'s, R, A, C, Q, J> as Watches<D::Conn>>⟧.watched service.now) service.now.board.now.id
        (desk_value (D.state desk.old.door.now) desk.old.pass.now (starts_of desk.old.lanes.items))
        (desk_value (D.state desk.new.door.now) desk.new.pass.now (starts_of desk.new.lanes.items))
        (K.held desk.old.out.now) (K.held desk.new.out.now) count result }
    ensures cause { HasCauseTold (K.faults desk.old.out.now) (K.faults desk.new.out.now) result }
    ensures lanes { AreLanes (⟦<Service<'s, R, A, C, Q, J> as Watches<D::Conn>>⟧.watched service.now)
        service.now.clock.now service.now.cases.now desk.new.lanes.items }
    ensures later { D.faults desk.old.door.now ≤ D.faults desk.new.door.now }
    ensures same { (desk.new.door.ghost_name ≡ desk.old.door.ghost_name) × (desk.new.out.ghost_name ≡ desk.old.out.ghost_name)
        × (desk.new.pass.ghost_name ≡ desk.old.pass.ghost_name) }
{
    let end = take_in(service, desk);
    write_line(
        service.alloc,
        desk.out,
        count - desk.lanes.len() as u64,
        end,
    )
}

/// Whether the connection that came first was served.
fn is_first_settled<N: Source + Sink + Peer, A: Admission, C: Clock, Q: Cases + Shows, J: Naming>(
    lanes: &VecDeque<Worker<N, A, C, Q, J>>,
) -> bool {
    match lanes.front() {
        Some(lane) => is_settled(lane),
        None => false,
    }
}

/// Takes in the connections that have ended and that no other one came before which is still being served, and writes
/// their lines, where `count` connections came.
pub(crate) fn tell_ended<
    's,
    R: Threads + Wait,
    D: Door,
    K: Sink,
    A: Admission,
    C: Clock,
    Q: Cases + Shows,
    J: Naming,
>(
    service: &Service<'s, R, A, C, Q, J>,
    desk: &mut Desk<'_, '_, '_, D, K, A, C, Q, J>,
    count: u64,
) -> Result<(), TextFault>
where
    D::Conn: Drop,
    requires orderly { IsOrderly (⟦<Service<'s, R, A, C, Q, J> as Watches<D::Conn>>⟧.watched service.now) service.now.board.now.id
        (desk_value (D.state desk.old.door.now) desk.old.pass.now (starts_of desk.old.lanes.items)) }
    requires lanes { AreLanes (⟦<Service<'s, R, A, C, Q, J> as Watches<D::Conn>>⟧.watched service.now)
        service.now.clock.now service.now.cases.now desk.old.lanes.items }
    requires count { deque_len desk.old.lanes ≤ count }
    ensures tells { TellsSome (⟦<Service<'s, R, A, C, Q, J> as Watches<D::Conn>>⟧.watched service.now) service.now.board.now.id
        (desk_value (D.state desk.old.door.now) desk.old.pass.now (starts_of desk.old.lanes.items))
        (desk_value (D.state desk.new.door.now) desk.new.pass.now (starts_of desk.new.lanes.items))
        (K.held desk.old.out.now) (K.held desk.new.out.now) count result }
    ensures cause { HasCauseTold (K.faults desk.old.out.now) (K.faults desk.new.out.now) result }
    ensures lanes { AreLanes (⟦<Service<'s, R, A, C, Q, J> as Watches<D::Conn>>⟧.watched service.now)
        service.now.clock.now service.now.cases.now desk.new.lanes.items }
    ensures later { D.faults desk.old.door.now ≤ D.faults desk.new.door.now }
    ensures same { (desk.new.door.ghost_name ≡ desk.old.door.ghost_name) × (desk.new.out.ghost_name ≡ desk.old.out.ghost_name)
        × (desk.new.pass.ghost_name ≡ desk.old.pass.ghost_name) }
{
    for _ in 0..desk.lanes.len() {
        if !is_first_settled(&desk.lanes) {
            return Ok(());
        }
        tell_next(service, desk, count)?;
    }
    Ok(())
}

/// Takes in all connections that are being served, and writes their lines, where `count` connections came.
pub(crate) fn tell_all<
    's,
    R: Threads + Wait,
    D: Door,
    K: Sink,
    A: Admission,
    C: Clock,
    Q: Cases + Shows,
    J: Naming,
>(
    service: &Service<'s, R, A, C, Q, J>,
    desk: &mut Desk<'_, '_, '_, D, K, A, C, Q, J>,
    count: u64,
) -> Result<(), TextFault>
where
    D::Conn: Drop,
    requires orderly { IsOrderly (⟦<Service<'s, R, A, C, Q, J> as Watches<D::Conn>>⟧.watched service.now) service.now.board.now.id
        (desk_value (D.state desk.old.door.now) desk.old.pass.now (starts_of desk.old.lanes.items)) }
    requires lanes { AreLanes (⟦<Service<'s, R, A, C, Q, J> as Watches<D::Conn>>⟧.watched service.now)
        service.now.clock.now service.now.cases.now desk.old.lanes.items }
    requires count { deque_len desk.old.lanes ≤ count }
    ensures tells { TellsAll (⟦<Service<'s, R, A, C, Q, J> as Watches<D::Conn>>⟧.watched service.now) service.now.board.now.id
        (desk_value (D.state desk.old.door.now) desk.old.pass.now (starts_of desk.old.lanes.items))
        (desk_value (D.state desk.new.door.now) desk.new.pass.now (starts_of desk.new.lanes.items))
        (K.held desk.old.out.now) (K.held desk.new.out.now) count result }
    ensures cause { HasCauseTold (K.faults desk.old.out.now) (K.faults desk.new.out.now) result }
    ensures lanes { AreLanes (⟦<Service<'s, R, A, C, Q, J> as Watches<D::Conn>>⟧.watched service.now)
        service.now.clock.now service.now.cases.now desk.new.lanes.items }
    ensures later { D.faults desk.old.door.now ≤ D.faults desk.new.door.now }
    ensures same { (desk.new.door.ghost_name ≡ desk.old.door.ghost_name) × (desk.new.out.ghost_name ≡ desk.old.out.ghost_name)
        × (desk.new.pass.ghost_name ≡ desk.old.pass.ghost_name) }
{
    for _ in 0..desk.lanes.len() {
        tell_next(service, desk, count)?;
    }
    Ok(())
}

/// Takes in all connections that are being served, where no line is written any more.
pub(crate) fn take_all<
    's,
    R: Threads + Wait,
    D: Door,
    K: Sink,
    A: Admission,
    C: Clock,
    Q: Cases + Shows,
    J: Naming,
>(service: &Service<'s, R, A, C, Q, J>, desk: &mut Desk<'_, '_, '_, D, K, A, C, Q, J>)
where
    D::Conn: Drop,
    requires orderly { IsOrderly (⟦<Service<'s, R, A, C, Q, J> as Watches<D::Conn>>⟧.watched service.now) service.now.board.now.id
        (desk_value (D.state desk.old.door.now) desk.old.pass.now (starts_of desk.old.lanes.items)) }
    requires lanes { AreLanes (⟦<Service<'s, R, A, C, Q, J> as Watches<D::Conn>>⟧.watched service.now)
        service.now.clock.now service.now.cases.now desk.old.lanes.items }
    ensures takes { TakesAll (⟦<Service<'s, R, A, C, Q, J> as Watches<D::Conn>>⟧.watched service.now) service.now.board.now.id
        (desk_value (D.state desk.old.door.now) desk.old.pass.now (starts_of desk.old.lanes.items))
        (desk_value (D.state desk.new.door.now) desk.new.pass.now (starts_of desk.new.lanes.items)) }
    ensures later { D.faults desk.old.door.now ≤ D.faults desk.new.door.now }
    ensures out { desk.new.out.now ≡ desk.old.out.now }
    ensures same { (desk.new.door.ghost_name ≡ desk.old.door.ghost_name) × (desk.new.out.ghost_name ≡ desk.old.out.ghost_name)
        × (desk.new.pass.ghost_name ≡ desk.old.pass.ghost_name) }
{
    for _ in 0..desk.lanes.len() {
        take_in(service, desk);
    }
}
