ghost use Rattle.std.specs.Prelude.{◌≡◌, ◌≤◌};
ghost use Rattle.std.specs.VecDeque.{deque_len};
ghost use Rattle.contest_server.specs.Lanes.{starts_of, AreLanes};

use crate::bell::{Bell, PLACES, Places};
use crate::desk::Desk;
use crate::lanes::{Worker, settle_at};
use crate::service::{Service, Watches};
use case_run::Cases;
use contest_page::Shows;
use farm_board::Admission;
use farm_io::{Clock, Door, Peer, Sink, Source};
use judge_feed::Naming;
use std::collections::VecDeque;
use std::sync::Wait;
use std::thread::Threads;

/// Joins the workers that are done.
fn settle_done<
    's,
    R: Threads,
    N: Source + Sink + Peer + Drop,
    A: Admission,
    C: Clock,
    Q: Cases + Shows,
    J: Naming,
>(
    service: &Service<'s, R, A, C, Q, J>,
    places: &mut Places,
    lanes: &mut VecDeque<Worker<N, A, C, Q, J>>,
    count: u64,
    done: [bool; PLACES],
)
    requires lanes { AreLanes (⟦<Service<'s, R, A, C, Q, J> as Watches<N>>⟧.watched service.now)
        service.now.clock.now service.now.cases.now lanes.old.items }
    ensures starts { starts_of lanes.new.items ≡ starts_of lanes.old.items }
    ensures lanes { AreLanes (⟦<Service<'s, R, A, C, Q, J> as Watches<N>>⟧.watched service.now)
        service.now.clock.now service.now.cases.now lanes.new.items }
    ensures len { deque_len lanes.new ≡ deque_len lanes.old }
{
    for place in 0..PLACES {
        if done[place]
            && let Some(before) = places.leave(place)
        {
            let told = count.saturating_sub(lanes.len() as u64);
            let index = before.saturating_sub(told);
            settle_at(service, lanes, index as usize);
        }
    }
}

/// Asks the connections that are being served to close, in the order in which they came and each a moment behind the one
/// before it, until a worker is done. Says which ones are.
fn ask_in_order<W: Wait, D: Door>(
    rt: &W,
    bell: &Bell,
    door: &mut D,
    places: &Places,
) -> [bool; PLACES]
    ensures kept { D.state door.new ≡ D.state door.old }
    ensures later { D.faults door.old ≤ D.faults door.new }
{
    let mut others = 0;
    for _ in 0..PLACES {
        let Some(before) = places.first_behind(others) else {
            return bell.await_any(rt);
        };
        door.ask_to_close(before);
        let done = bell.heard_soon(rt);
        if done.contains(&true) {
            return done;
        }
        others = before.saturating_add(1);
    }
    bell.await_any(rt)
}

/// Joins the workers that are done. Where as many as there may be are at work, one of them is waited for, and the
/// connections are asked to close, the first one at first.
pub(crate) fn free_place<
    's,
    R: Threads + Wait,
    D: Door,
    K: Sink,
    A: Admission,
    C: Clock,
    Q: Cases + Shows,
    J: Naming,
>(service: &Service<'s, R, A, C, Q, J>, desk: &mut Desk<'_, '_, '_, D, K, A, C, Q, J>, count: u64)
where
    D::Conn: Drop,
    requires lanes { AreLanes (⟦<Service<'s, R, A, C, Q, J> as Watches<D::Conn>>⟧.watched service.now)
        service.now.clock.now service.now.cases.now desk.old.lanes.items }
    ensures kept { D.state desk.new.door.now ≡ D.state desk.old.door.now }
    ensures later { D.faults desk.old.door.now ≤ D.faults desk.new.door.now }
    ensures starts { starts_of desk.new.lanes.items ≡ starts_of desk.old.lanes.items }
    ensures lanes { AreLanes (⟦<Service<'s, R, A, C, Q, J> as Watches<D::Conn>>⟧.watched service.now)
        service.now.clock.now service.now.cases.now desk.new.lanes.items }
    ensures out { desk.new.out.now ≡ desk.old.out.now }
    ensures pass { desk.new.pass.now ≡ desk.old.pass.now }
    ensures len { deque_len desk.new.lanes ≡ deque_len desk.old.lanes }
    ensures same { (desk.new.door.ghost_name ≡ desk.old.door.ghost_name) × (desk.new.out.ghost_name ≡ desk.old.out.ghost_name)
        × (desk.new.pass.ghost_name ≡ desk.old.pass.ghost_name) }
{
    let heard = service.bell.heard(service.rt);
    settle_done(service, &mut desk.places, &mut desk.lanes, count, heard);
    if desk.places.count() < usize::from(service.workers) {
        return;
    }
    let done = ask_in_order(service.rt, service.bell, desk.door, &desk.places);
    settle_done(service, &mut desk.places, &mut desk.lanes, count, done);
}
