ghost use Rattle.std.specs.Prelude.{◌≡◌, ◌≢◌, ◌+◌, ◌<◌, ◌≤◌, IfOk, IsTrue, true, false};
ghost use Rattle.farm_board.specs.Histories.{opening_board, IsAlone, effective_calls, journal_with_calls};
ghost use Rattle.farm_board.specs.Passes.{Calls, SplitsOff, TakesIn, at_rest, opening_pass, board_seen};
ghost use Rattle.farm_board.specs.Trusts.{IsAdmitted, AreBacked, AreAdmitted, AdmitsOne, NeverDiffers};

use crate::calls::{call, call_and_keep, join, split};
use crate::contents::{Contents, TrustedContents};
use crate::entries::CallJournal;
use crate::rule::{BoardRule, Slot};
use crate::trust::{Admission, Trust};
use crate::turn::let_go;
use crate::view::View;
use atomic_table::{Refused, Seat, Table, TableRule};
use farm_core::Farm;
use farm_kinds::{Event, NoMemory, Reply};
use std::alloc::Global;
use std::marker::{Model, PhantomData};
use std::snapshot::Snapshot;
use std::sync::Wait;

/// A farm that threads share, each by a pass of its own. Contracts see what tells it apart from other boards, and what
/// it trusts.
pub type Board<R, A> = BoardOf<R, A, Slot<A>, Snapshot<Contents>, BoardRule<A>>;

/// The right to call a board. Contracts see which board, and what the pass knows of the board's history.
pub type Pass<A> = PassOf<Slot<A>>;

/// `Board`, for any type of what lies in the slot of its table: so it is seen that threads may share it.
#[derive(Drop)]
pub struct BoardOf<R: Trust, A: Admission, S, K, P: TableRule<S, View, K>> {
    table: Table<S, View, K, P, Global>,
    trust: R,
    of: PhantomData<A>,
}

impl<R: Trust, A: Admission, S, K, P: TableRule<S, View, K>> Model for BoardOf<R, A, S, K, P> {
    ghost use Rattle.farm_board.specs.Passes.{BoardValue};

    ghost Value = { BoardValue R };

    ghost use Rattle.std.specs.Prelude.{◌≡◌};

    ghost view = { λ b. record { id = b.table.shared.table_id; trust = b.trust } };

    ghost invariant = { λ b. (b.table.shared.table_id.words ≡ 2) × (b.table.shared.table_id.slots ≡ 1) × (A.admits ≡ R.admits b.trust) };
}

/// `Pass`, for any type of what lies in the slot of the board's table: so it is seen that it may go to another thread.
#[derive(Drop)]
pub struct PassOf<S> {
    seat: Seat<S, View>,
    number: u64,
    spare: u16,
    left: u64,
    seats: u16,
    /// It has kept the ticket of its last call, whose turn goes on.
    kept: bool,
}

impl<S> Model for PassOf<S> {
    ghost use Rattle.farm_board.specs.Passes.{PassValue, pass_of};

    ghost Value = { PassValue };

    ghost use Rattle.std.specs.Prelude.{◌≡◌, []};
    ghost use Rattle.farm_board.specs.Views.{IsBetween};
    ghost use Rattle.farm_board.specs.Passes.{IsSoundView};

    ghost view = { λ p. pass_of p.seat.table_id p.seat.me.0 };

    ghost invariant = { λ p. (p.seat.me.1 ≡ []) × IsBetween p.kept p.seat.me.0 × IsSoundView p.seat.me.0
        × ((p.number ≡ p.seat.me.0.number) × (p.spare ≡ p.seat.me.0.spare) × (p.left ≡ p.seat.me.0.left)
        × (p.seats ≡ p.seat.me.0.start.value.seats)) };
}

impl<R: Trust + Drop, A: Admission> Board<R, A> {
    /// A board that begins with this farm, and its opening pass. At most `seats` passes can be out at once. With
    /// `journal` the calls that take effect are kept.
    pub fn new(
        alloc: Global,
        farm: Farm,
        trust: R,
        seats: u16,
        journal: bool,
    ) -> Result<(Board<R, A>, Pass<A>), NoMemory>
        requires named { A.admits ≡ R.admits trust }
        requires seats { 1 ≤ seats }
        requires backed { AreBacked (R.admits trust) farm }
        ensures trust { IfOk result (λ r. r.0.trust ≡ trust) }
        ensures pass { IfOk result (λ r. r.1 ≡ opening_pass r.0.id (opening_board farm seats journal)) }
    {
        let contents = Contents::new(alloc, farm, seats, journal)?;
        let start = Snapshot::of(&contents);
        let held = TrustedContents::new(contents);
        let mut slots = Vec::with_capacity(alloc, 1)?;
        slots.push_reserved(Some(held));
        match Table::new(alloc, &[0, 0], slots, &start) {
            Ok((table, seat)) => Ok((
                BoardOf {
                    table,
                    trust,
                    of: PhantomData,
                },
                PassOf {
                    seat,
                    number: 0,
                    spare: seats - 1,
                    left: 1 << 62,
                    seats,
                    kept: false,
                },
            )),
            Err(Refused { slots: _ }) => Err(NoMemory),
        }
    }

    /// What the board trusts.
    pub fn trust(&self) -> &R
        ensures { result.now ≡ self.now.trust }
    {
        &self.trust
    }

    /// Answers an event, once it is this call's turn: the reply is the farm's after all that stands before the call in
    /// the history. `NoMemory` comes also for an event that takes no memory, where a journal is kept. It changes nothing
    /// of the farm.
    pub fn step<W: Wait>(&self, rt: &W, pass: &mut Pass<A>, event: &Event) -> Reply
        requires board { pass.old.board ≡ self.now.id }
        requires left { 0 < pass.old.left }
        requires admitted { IsAdmitted (R.admits self.now.trust) event.now }
        ensures call { Calls pass.old pass.new event.now result }
        ensures turn { pass.new.kept ≡ false }
        ensures agrees { AdmitsOne (R.admits self.now.trust) → NeverDiffers event.now result }
    {
        let shared = &self.table.shared;
        let reply = call(rt, shared, &mut pass.seat, pass.number, event, pass.kept);
        pass.kept = false;
        pass.left -= 1;
        reply
    }

    /// Answers an event as `step` does, and keeps the turn: no other pass is answered, or split off or taken in, before
    /// this one's next call or `let_go`. A host that posts a result and claims next does both in one turn then.
    pub fn step_and_keep<W: Wait>(&self, rt: &W, pass: &mut Pass<A>, event: &Event) -> Reply
        requires board { pass.old.board ≡ self.now.id }
        requires left { 0 < pass.old.left }
        requires admitted { IsAdmitted (R.admits self.now.trust) event.now }
        ensures call { Calls pass.old pass.new event.now result }
        ensures turn { pass.new.kept ≡ true }
        ensures agrees { AdmitsOne (R.admits self.now.trust) → NeverDiffers event.now result }
    {
        let shared = &self.table.shared;
        let reply = call_and_keep(rt, shared, &mut pass.seat, pass.number, event, pass.kept);
        pass.kept = true;
        pass.left -= 1;
        reply
    }

    /// Lets the other passes have their turns again, where this one has kept its own.
    pub fn let_go(&self, pass: &mut Pass<A>)
        requires board { pass.old.board ≡ self.now.id }
        ensures { pass.new ≡ at_rest pass.old }
    {
        let_go(&self.table.shared, &mut pass.seat, pass.kept);
        pass.kept = false;
    }

    /// Splits off a pass with the next number, which may make `share` of the calls that are left.
    pub fn split<W: Wait>(&self, rt: &W, pass: &mut Pass<A>, share: u64) -> Pass<A>
        requires board { pass.old.board ≡ self.now.id }
        requires spare { 0 < pass.old.spare }
        requires left { share < pass.old.left }
        ensures split { SplitsOff pass.old pass.new result share }
        ensures turn { (pass.new.kept ≡ false) × (result.kept ≡ false) }
    {
        let shared = &self.table.shared;
        let_go(shared, &mut pass.seat, pass.kept);
        let (seat, number) = split(rt, shared, &mut pass.seat, pass.number, share);
        pass.kept = false;
        pass.spare -= 1;
        pass.left -= share + 1;
        PassOf {
            seat,
            number,
            spare: 0,
            left: share,
            seats: pass.seats,
            kept: false,
        }
    }

    /// Takes in another pass, with the seats that it may split off and the calls that it has left.
    pub fn join<W: Wait>(&self, rt: &W, into: &mut Pass<A>, from: Pass<A>)
        requires board { (into.old.board ≡ self.now.id) × (from.board ≡ self.now.id) }
        requires left { 0 < into.old.left + from.left }
        ensures join { TakesIn into.old from into.new }
        ensures turn { into.new.kept ≡ false }
    {
        let PassOf {
            mut seat,
            number,
            spare,
            left,
            seats: _,
            kept,
        } = from;
        let shared = &self.table.shared;
        let_go(shared, &mut seat, kept);
        let_go(shared, &mut into.seat, into.kept);
        join(rt, shared, &mut into.seat, into.number, seat, number);
        into.kept = false;
        into.spare += spare + 1;
        into.left += left;
        into.left -= 1;
    }

    /// The farm after all that the pass has seen, and the journal where one was kept. No other pass may be out.
    pub fn close(self, pass: Pass<A>) -> (Farm, Option<CallJournal>)
        requires board { pass.board ≡ self.id }
        requires alone { IsAlone pass.number (board_seen pass) }
        ensures farm { result.0 ≡ (board_seen pass).state }
        ensures journal { result.1 ≡ journal_with_calls pass.start.journal (effective_calls pass.seen) }
        ensures backed { AreBacked (R.admits self.trust) result.0 }
        ensures admitted { AreAdmitted (R.admits self.trust) result.1 }
    {
        let PassOf { mut seat, kept, .. } = pass;
        let BoardOf { table, .. } = self;
        let_go(&table.shared, &mut seat, kept);
        let mut closed = table.close_with(seat);
        let held = closed.take(0);
        closed.free();
        match held {
            Some(held) => held.into_parts(),
            // No pass holds the slot, so its contents lie there.
            None => unreachable!(),
        }
    }
}

impl<A: Admission> Pass<A> {
    /// Its number: 0 of the opening pass, 1 of the first one that is split off, and so on.
    pub fn number(&self) -> u64
        ensures { result ≡ self.now.number }
    {
        self.number
    }

    /// How many passes it may split off.
    pub fn spare(&self) -> u16
        ensures { result ≡ self.now.spare }
    {
        self.spare
    }

    /// How many calls it may still make. A step, a split and a join are one call each.
    pub fn left(&self) -> u64
        ensures { result ≡ self.now.left }
    {
        self.left
    }

    /// Whether it may split off all passes but itself, so that no other one is out.
    pub fn is_alone(&self) -> bool
        ensures alone { IsTrue result → IsAlone self.now.number (board_seen self.now) }
        ensures spare { self.now.spare + 1 ≡ self.now.start.seats → IsTrue result }
    {
        self.spare >= self.seats - 1
    }
}
