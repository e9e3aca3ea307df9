ghost use Rattle.std.specs.Prelude.{◌≡◌, ◌<◌, true, false, [], ◌∷◌, ◌++◌, Some, None, IsTrue};
ghost use Rattle.farm_board.specs.Histories.{board_after};
ghost use Rattle.farm_board.specs.Views.{with_entry, with_kept_ticket, without_ticket, IsBetween, IsFree, IsKeeping, IsResting};
ghost use Rattle.farm_board.specs.Steps.{GetsTurn, InTurn};
ghost use Rattle.farm_board.specs.Passes.{at_rest, pass_of, IsSeated, IsSoundView};
ghost use Rattle.farm_board.specs.declared.entries.Call.{Call};
ghost use Rattle.farm_board.specs.declared.entries.HistoryEntry.{HistoryEntry};
ghost use Rattle.farm_board.specs.declared.entries.HistoryEntry.TheVariants as entry;

use crate::contents::TrustedContents;
use crate::rule::{
    BoardSeat, DrawTicket, FinishTurn, GiveTicketUp, GoOn, KeepTicket, LookForTurn, SharedBoard,
};
use crate::trust::Admission;
use std::sync::Wait;
use std::{hint, thread};

/// How often a pass looks for its turn before it lets other threads have the processor: some turns long.
const LOOKS: u32 = 30;

/// Looks whether the turn of the ticket has come, a few times.
fn sees_turn<A: Admission>(shared: &SharedBoard<A>, seat: &mut BoardSeat<A>, ticket: u64) -> bool
    requires table { IsSeated seat.old.table_id shared.now.table_id }
    requires waits { (seat.old.me.0.ticket ≡ Some ticket) × (seat.old.me.0.turn ≡ false) × (seat.old.me.0.coming ≡ None) × (seat.old.me.0.ended ≡ false) }
    requires empty { seat.old.me.1 ≡ [] }
    ensures table { (seat.new.table_id ≡ seat.old.table_id) × (seat.new.id ≡ seat.old.id) }
    ensures turn { IsTrue result → GetsTurn (λ held. held.contents) seat.old.me seat.new.me }
    ensures none { result ≡ false → seat.new.me ≡ seat.old.me }
{
    for _ in 0..LOOKS {
        if shared.load::<LookForTurn>(seat, 1) == ticket {
            return true;
        }
        hint::spin_loop();
    }
    false
}

/// Waits for the turn of the ticket.
fn await_turn<W: Wait, A: Admission>(
    rt: &W,
    shared: &SharedBoard<A>,
    seat: &mut BoardSeat<A>,
    ticket: u64,
)
    requires table { IsSeated seat.old.table_id shared.now.table_id }
    requires waits { (seat.old.me.0.ticket ≡ Some ticket) × (seat.old.me.0.turn ≡ false) × (seat.old.me.0.coming ≡ None) × (seat.old.me.0.ended ≡ false) }
    requires empty { seat.old.me.1 ≡ [] }
    ensures table { (seat.new.table_id ≡ seat.old.table_id) × (seat.new.id ≡ seat.old.id) }
    ensures turn { GetsTurn (λ held. held.contents) seat.old.me seat.new.me }
{
    for _ in rt.forever() {
        if sees_turn(shared, seat, ticket) {
            return;
        }
        thread::yield_now();
    }
    unreachable!()
}

/// Draws a ticket, waits for its turn, and takes what lies in the slot.
pub(crate) fn take_turn<W: Wait, A: Admission>(
    rt: &W,
    shared: &SharedBoard<A>,
    seat: &mut BoardSeat<A>,
) -> TrustedContents<A>
    requires table { IsSeated seat.old.table_id shared.now.table_id }
    requires resting { IsResting seat.old.me.0 }
    requires empty { seat.old.me.1 ≡ [] }
    requires left { 0 < seat.old.me.0.left }
    ensures table { (seat.new.table_id ≡ seat.old.table_id) × (seat.new.id ≡ seat.old.id) }
    ensures turn { InTurn seat.old.me.0 seat.new.me.0 result.contents }
    ensures slot { seat.new.me.1 ≡ (0, None) ∷ [] }
{
    let ticket = shared.fetch_add::<DrawTicket>(seat, 0, 1);
    await_turn(rt, shared, seat, ticket);
    let Some(held) = shared.exchange(seat, 0, None) else {
        unreachable!()
    };
    held
}

/// Goes on in the turn whose ticket was kept, and takes what lies in the slot.
fn go_on<A: Admission>(shared: &SharedBoard<A>, seat: &mut BoardSeat<A>) -> TrustedContents<A>
    requires table { IsSeated seat.old.table_id shared.now.table_id }
    requires keeping { IsKeeping seat.old.me.0 }
    requires empty { seat.old.me.1 ≡ [] }
    requires left { 0 < seat.old.me.0.left }
    ensures table { (seat.new.table_id ≡ seat.old.table_id) × (seat.new.id ≡ seat.old.id) }
    ensures turn { InTurn seat.old.me.0 seat.new.me.0 result.contents }
    ensures slot { seat.new.me.1 ≡ (0, None) ∷ [] }
{
    shared.load::<GoOn>(seat, 1);
    let Some(held) = shared.exchange(seat, 0, None) else {
        unreachable!()
    };
    held
}

/// Takes what lies in the slot, in the turn whose ticket was kept, or in that of a new one.
pub(crate) fn have_turn<W: Wait, A: Admission>(
    rt: &W,
    shared: &SharedBoard<A>,
    seat: &mut BoardSeat<A>,
    kept: bool,
) -> TrustedContents<A>
    requires table { IsSeated seat.old.table_id shared.now.table_id }
    requires between { IsBetween kept seat.old.me.0 }
    requires empty { seat.old.me.1 ≡ [] }
    requires left { 0 < seat.old.me.0.left }
    ensures table { (seat.new.table_id ≡ seat.old.table_id) × (seat.new.id ≡ seat.old.id) }
    ensures turn { InTurn seat.old.me.0 seat.new.me.0 result.contents }
    ensures slot { seat.new.me.1 ≡ (0, None) ∷ [] }
{
    if kept {
        go_on(shared, seat)
    } else {
        take_turn(rt, shared, seat)
    }
}

/// Puts it back into the slot, and ends the turn.
pub(crate) fn end_turn<A: Admission>(
    shared: &SharedBoard<A>,
    seat: &mut BoardSeat<A>,
    held: TrustedContents<A>,
)
    requires table { IsSeated seat.old.table_id shared.now.table_id }
    requires turn { (seat.old.me.0.turn ≡ true) × (seat.old.me.0.ended ≡ false) }
    requires slot { seat.old.me.1 ≡ (0, None) ∷ [] }
    requires entry { (e : HistoryEntry) × (seat.old.me.0.coming ≡ Some e) × (held.contents ≡ board_after seat.old.me.0.start.value (seat.old.me.0.seen ++ e ∷ [])) }
    ensures table { (seat.new.table_id ≡ seat.old.table_id) × (seat.new.id ≡ seat.old.id) }
    ensures view { (e : HistoryEntry) → seat.old.me.0.coming ≡ Some e → seat.new.me ≡ (with_entry seat.old.me.0 e, []) }
{
    drop(shared.exchange(seat, 0, Some(held)));
    shared.fetch_add::<FinishTurn>(seat, 1, 1);
}

/// Puts it back into the slot after a call, and keeps the ticket.
pub(crate) fn keep_ticket<A: Admission>(
    shared: &SharedBoard<A>,
    seat: &mut BoardSeat<A>,
    held: TrustedContents<A>,
)
    requires table { IsSeated seat.old.table_id shared.now.table_id }
    requires turn { (seat.old.me.0.turn ≡ true) × (seat.old.me.0.ended ≡ false) }
    requires slot { seat.old.me.1 ≡ (0, None) ∷ [] }
    requires entry { (c : Call) × (seat.old.me.0.coming ≡ Some (entry.Call c)) × (held.contents ≡ board_after seat.old.me.0.start.value (seat.old.me.0.seen ++ entry.Call c ∷ [])) }
    ensures table { (seat.new.table_id ≡ seat.old.table_id) × (seat.new.id ≡ seat.old.id) }
    ensures view { (e : HistoryEntry) → seat.old.me.0.coming ≡ Some e → seat.new.me ≡ (with_kept_ticket seat.old.me.0 e, []) }
{
    drop(shared.exchange(seat, 0, Some(held)));
    shared.load::<KeepTicket>(seat, 1);
}

/// Gives up the ticket that was kept.
fn give_ticket_up<A: Admission>(shared: &SharedBoard<A>, seat: &mut BoardSeat<A>)
    requires table { IsSeated seat.old.table_id shared.now.table_id }
    requires keeping { IsKeeping seat.old.me.0 }
    ensures table { (seat.new.table_id ≡ seat.old.table_id) × (seat.new.id ≡ seat.old.id) }
    ensures view { seat.new.me ≡ (without_ticket seat.old.me.0, seat.old.me.1) }
{
    shared.fetch_add::<GiveTicketUp>(seat, 1, 1);
}

/// Gives up the ticket, if one was kept.
pub(crate) fn let_go<A: Admission>(shared: &SharedBoard<A>, seat: &mut BoardSeat<A>, kept: bool)
    requires table { IsSeated seat.old.table_id shared.now.table_id }
    requires between { IsBetween kept seat.old.me.0 × (seat.old.me.1 ≡ []) }
    requires sound { IsSoundView seat.old.me.0 }
    ensures table { seat.new.table_id ≡ seat.old.table_id }
    ensures free { IsFree seat.new.me.0 × (seat.new.me.1 ≡ []) }
    ensures same { pass_of seat.new.table_id seat.new.me.0 ≡ at_rest (pass_of seat.old.table_id seat.old.me.0) }
    ensures keeps { IsSoundView seat.new.me.0 }
{
    if kept {
        give_ticket_up(shared, seat);
    }
}
