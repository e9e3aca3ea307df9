ghost use Rattle.std.specs.Prelude.{◌≡◌, ◌+◌, ◌<◌, ◌≤◌, true, false, []};
ghost use Rattle.farm_board.specs.Histories.{board_after, pass_number, IsNext};
ghost use Rattle.farm_board.specs.Marks.{entry_of};
ghost use Rattle.farm_board.specs.Views.{with_coming, split_left, split_right, Suits, IsBetween, IsFree, IsKeeping};
ghost use Rattle.farm_board.specs.Steps.{EndsTurn};
ghost use Rattle.farm_board.specs.Passes.{pass_of, IsSeated, IsGiving, IsSoundView, Calls, SplitsOff, TakesIn};
ghost use Rattle.farm_board.specs.Trusts.{IsAdmitted, AdmitsOne, NeverDiffers};
ghost use Rattle.farm_board.specs.declared.entries.HistoryEntry.TheVariants as entry;

use crate::rule::{BoardSeat, JoinSeat, MarkEntry, PicksEntry, PicksShare, SharedBoard, SplitSeat};
use crate::trust::Admission;
use crate::turn::{end_turn, have_turn, keep_ticket, take_turn};
use farm_kinds::{Event, Reply};
use std::marker::Brand;
use std::sync::Wait;

/// What a turn enters into the history.
#[derive(Clone, Copy)]
enum Mark<'a> {
    /// The pass of this number made a call.
    Call {
        number: u64,
        event: &'a Event,
        reply: &'a Reply,
    },
    /// It split off a pass with the number `new`.
    Split {
        number: u64,
        new: u64,
    },
    /// It took in the pass with the number `old`.
    Join {
        number: u64,
        old: u64,
    },
}

/// Marks what the turn enters as the entry to come.
fn mark_entry<A: Admission, G: PicksEntry>(
    shared: &SharedBoard<A>,
    seat: &mut BoardSeat<A>,
    what: Mark<'_>,
)
    requires table { IsSeated seat.old.table_id shared.now.table_id }
    requires entry { G.entry ≡ entry_of what }
    requires turn { (seat.old.me.0.turn ≡ true) × (seat.old.me.0.ended ≡ false) }
    requires own { pass_number (entry_of what) ≡ seat.old.me.0.number }
    requires next { IsNext (board_after seat.old.me.0.start.value seat.old.me.0.seen) (entry_of what) }
    requires suits { Suits (entry_of what) seat.old.me.0 }
    ensures table { (seat.new.table_id ≡ seat.old.table_id) × (seat.new.id ≡ seat.old.id) }
    ensures view { seat.new.me ≡ (with_coming seat.old.me.0 (entry_of what.entry), seat.old.me.1) }
{
    shared.load::<MarkEntry<G>>(seat, 1);
}

/// A new seat, with the number that this one has to give and a share of its calls.
fn split_off<A: Admission, G: PicksShare>(
    shared: &SharedBoard<A>,
    seat: &mut BoardSeat<A>,
    new: u64,
    share: u64,
) -> BoardSeat<A>
    requires table { IsSeated seat.old.table_id shared.now.table_id }
    requires named { G.share ≡ share }
    requires to_give { IsGiving new seat.old.me.0 }
    requires share { share ≤ seat.old.me.0.left }
    ensures table { (seat.new.table_id ≡ seat.old.table_id) × (seat.new.id ≡ seat.old.id) × (result.table_id ≡ seat.old.table_id) }
    ensures left { seat.new.me ≡ (split_left share seat.old.me.0, seat.old.me.1) }
    ensures right { result.me ≡ (split_right share seat.old.me.0, []) }
{
    shared.split_seat::<SplitSeat<G>>(seat)
}

/// Has the farm answer the event, in the turn whose ticket was kept or in a new one, and ends the turn.
pub(crate) fn call<W: Wait, A: Admission>(
    rt: &W,
    shared: &SharedBoard<A>,
    seat: &mut BoardSeat<A>,
    number: u64,
    event: &Event,
    kept: bool,
) -> Reply
    requires table { IsSeated seat.old.table_id shared.now.table_id }
    requires between { IsBetween kept seat.old.me.0 × (seat.old.me.1 ≡ []) }
    requires number { number ≡ seat.old.me.0.number }
    requires left { 0 < seat.old.me.0.left }
    requires admitted { IsAdmitted A.admits event.now }
    ensures table { seat.new.table_id ≡ seat.old.table_id }
    ensures free { IsFree seat.new.me.0 × (seat.new.me.1 ≡ []) }
    ensures calls { Calls (pass_of seat.old.table_id seat.old.me.0) (pass_of seat.new.table_id seat.new.me.0) event.now result }
    ensures keeps { IsSoundView seat.new.me.0 }
    ensures agrees { AdmitsOne A.admits → NeverDiffers event.now result }
{
    let mut held = have_turn(rt, shared, seat, kept);
    let reply = held.call(number, event);
    let entered = Mark::Call {
        number,
        event,
        reply: &reply,
    };
    mark_entry::<A, Brand>(shared, seat, entered);
    end_turn(shared, seat, held);
    reply
}

/// The same, but keeps the ticket, so that the turn goes on.
pub(crate) fn call_and_keep<W: Wait, A: Admission>(
    rt: &W,
    shared: &SharedBoard<A>,
    seat: &mut BoardSeat<A>,
    number: u64,
    event: &Event,
    kept: bool,
) -> Reply
    requires table { IsSeated seat.old.table_id shared.now.table_id }
    requires between { IsBetween kept seat.old.me.0 × (seat.old.me.1 ≡ []) }
    requires number { number ≡ seat.old.me.0.number }
    requires left { 0 < seat.old.me.0.left }
    requires admitted { IsAdmitted A.admits event.now }
    ensures table { seat.new.table_id ≡ seat.old.table_id }
    ensures keeping { IsKeeping seat.new.me.0 × (seat.new.me.1 ≡ []) }
    ensures calls { Calls (pass_of seat.old.table_id seat.old.me.0) (pass_of seat.new.table_id seat.new.me.0) event.now result }
    ensures keeps { IsSoundView seat.new.me.0 }
    ensures agrees { AdmitsOne A.admits → NeverDiffers event.now result }
{
    let mut held = have_turn(rt, shared, seat, kept);
    let reply = held.call(number, event);
    let entered = Mark::Call {
        number,
        event,
        reply: &reply,
    };
    mark_entry::<A, Brand>(shared, seat, entered);
    keep_ticket(shared, seat, held);
    reply
}

/// Takes a turn, after which the pass has this number to give to a new one.
fn split_turn<W: Wait, A: Admission>(
    rt: &W,
    shared: &SharedBoard<A>,
    seat: &mut BoardSeat<A>,
    number: u64,
) -> u64
    requires table { IsSeated seat.old.table_id shared.now.table_id }
    requires free { IsFree seat.old.me.0 × (seat.old.me.1 ≡ []) }
    requires number { number ≡ seat.old.me.0.number }
    requires left { 0 < seat.old.me.0.left }
    requires spare { 0 < seat.old.me.0.spare }
    ensures table { (seat.new.table_id ≡ seat.old.table_id) × (seat.new.me.1 ≡ []) }
    ensures ended { EndsTurn seat.old.me.0 seat.new.me.0 (entry.Split number result) }
{
    let mut held = take_turn(rt, shared, seat);
    let new = held.split();
    mark_entry::<A, Brand>(shared, seat, Mark::Split { number, new });
    end_turn(shared, seat, held);
    new
}

/// Takes a turn, and splits off a seat with the number that this gave.
pub(crate) fn split<W: Wait, A: Admission>(
    rt: &W,
    shared: &SharedBoard<A>,
    seat: &mut BoardSeat<A>,
    number: u64,
    share: u64,
) -> (BoardSeat<A>, u64)
    requires table { IsSeated seat.old.table_id shared.now.table_id }
    requires free { IsFree seat.old.me.0 × (seat.old.me.1 ≡ []) }
    requires number { number ≡ seat.old.me.0.number }
    requires left { share < seat.old.me.0.left }
    requires spare { 0 < seat.old.me.0.spare }
    ensures table { (seat.new.table_id ≡ seat.old.table_id) × (result.0.table_id ≡ seat.old.table_id) }
    ensures free { IsFree seat.new.me.0 × (seat.new.me.1 ≡ []) }
    ensures free_new { IsFree result.0.me.0 × (result.0.me.1 ≡ []) }
    ensures number { result.1 ≡ result.0.me.0.number }
    ensures splits { SplitsOff (pass_of seat.old.table_id seat.old.me.0) (pass_of seat.new.table_id seat.new.me.0) (pass_of result.0.table_id result.0.me.0) share }
    ensures keeps { IsSoundView seat.new.me.0 × IsSoundView result.0.me.0 }
{
    let new = split_turn(rt, shared, seat, number);
    (split_off::<A, Brand>(shared, seat, new, share), new)
}

/// Takes in another seat, which from then on has no call left, and then takes a turn that says so.
pub(crate) fn join<W: Wait, A: Admission>(
    rt: &W,
    shared: &SharedBoard<A>,
    seat: &mut BoardSeat<A>,
    number: u64,
    from: BoardSeat<A>,
    old: u64,
)
    requires table { IsSeated seat.old.table_id shared.now.table_id × (from.table_id ≡ shared.now.table_id) }
    requires free { IsFree seat.old.me.0 × (seat.old.me.1 ≡ []) }
    requires free_old { IsFree from.me.0 × (from.me.1 ≡ []) }
    requires number { (number ≡ seat.old.me.0.number) × (old ≡ from.me.0.number) }
    requires left { 0 < seat.old.me.0.left + from.me.0.left }
    ensures table { seat.new.table_id ≡ seat.old.table_id }
    ensures free { IsFree seat.new.me.0 × (seat.new.me.1 ≡ []) }
    ensures joins { TakesIn (pass_of seat.old.table_id seat.old.me.0) (pass_of from.table_id from.me.0) (pass_of seat.new.table_id seat.new.me.0) }
    ensures keeps { IsSoundView seat.new.me.0 }
{
    shared.join_seat::<JoinSeat>(seat, from);
    let mut held = take_turn(rt, shared, seat);
    held.join(old);
    mark_entry::<A, Brand>(shared, seat, Mark::Join { number, old });
    end_turn(shared, seat, held);
}
