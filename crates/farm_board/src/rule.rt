ghost use Rattle.std.specs.Prelude.{ℕ};
ghost use Rattle.farm_board.specs.declared.entries.HistoryEntry.{HistoryEntry};
ghost use Rattle.farm_board.specs.declared.entries.HistoryEntry.TheVariants as entry;
ghost use Rattle.farm_board.specs.Views.{opening_view, split_left, split_right, joined_view, ended_view};
ghost use Rattle.farm_board.specs.Rules.{IsConsistent};
ghost use Rattle.farm_board.specs.Steps.{DrawsTicket, LooksForTurn, GoesOn, MarksEntry, FinishesTurn, KeepsTicket, GivesTicketUp};

use crate::contents::{Contents, TrustedContents};
use crate::trust::Admission;
use crate::view::View;
use atomic_table::{Join, Play, Seat, Shared, Split, TableRule};
use std::marker::{Brand, PhantomData};
use std::snapshot::Snapshot;

/// What lies in the slot of a board's table, while no pass holds it.
pub type Slot<A> = Option<TrustedContents<A>>;

/// The part of a board's table that all passes share.
pub(crate) type SharedBoard<A> = Shared<Slot<A>, View, Snapshot<Contents>, BoardRule<A>>;

/// The seat of a pass.
pub(crate) type BoardSeat<A> = Seat<Slot<A>, View>;

/// The rule of a board's table. Its key is what the board began with.
pub struct BoardRule<A> {
    of: PhantomData<A>,
}

impl<A: Admission> TableRule<Slot<A>, View, Snapshot<Contents>> for BoardRule<A> {
    ghost holds = { λ start. IsConsistent (λ held. held.contents) start.value };

    ghost first = { opening_view };
}

/// A ticket is drawn, by adding to word 0.
pub struct DrawTicket;

impl<A: Admission> Play<Slot<A>, View> for DrawTicket {
    ghost then = { DrawsTicket };
}

/// Word 1 is read. Where it is the ticket, the turn has come, and the slot is taken.
pub struct LookForTurn;

impl<A: Admission> Play<Slot<A>, View> for LookForTurn {
    ghost then = { LooksForTurn (λ held. held.contents) };
}

/// The ticket that was kept serves for one more call, and the slot is taken.
pub struct GoOn;

impl<A: Admission> Play<Slot<A>, View> for GoOn {
    ghost then = { GoesOn (λ held. held.contents) };
}

/// The entry that is to come. The function that marks it picks it.
pub trait PicksEntry {
    ghost entry: { HistoryEntry };
}

impl PicksEntry for Brand {
    ghost entry = { entry.Join 0 0 };
}

/// The entry is marked as the one to come.
pub struct MarkEntry<G> {
    of: PhantomData<G>,
}

impl<A: Admission, G: PicksEntry> Play<Slot<A>, View> for MarkEntry<G> {
    ghost then = { MarksEntry G.entry };
}

/// The entry to come joins the history, and the turn ends, by adding to word 1.
pub struct FinishTurn;

impl<A: Admission> Play<Slot<A>, View> for FinishTurn {
    ghost then = { FinishesTurn };
}

/// The entry to come joins the history, and the ticket is kept: its turn goes on.
pub struct KeepTicket;

impl<A: Admission> Play<Slot<A>, View> for KeepTicket {
    ghost then = { KeepsTicket };
}

/// The ticket that was kept is given up, by adding to word 1.
pub struct GiveTicketUp;

impl<A: Admission> Play<Slot<A>, View> for GiveTicketUp {
    ghost then = { GivesTicketUp };
}

/// How many calls a new pass is given. The function that splits it off picks it.
pub trait PicksShare {
    ghost share: { ℕ };
}

impl PicksShare for Brand {
    ghost share = { 0 };
}

/// The number to give and the share go to a new seat.
pub struct SplitSeat<G> {
    of: PhantomData<G>,
}

impl<G: PicksShare> Split<View> for SplitSeat<G> {
    ghost left = { split_left G.share };

    ghost right = { split_right G.share };
}

/// Another seat is taken in.
pub struct JoinSeat;

impl Join<View> for JoinSeat {
    ghost both = { joined_view };

    ghost spent = { ended_view };
}
