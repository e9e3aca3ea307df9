ghost use Rattle.std.specs.Prelude.{◌≡◌, ◌+◌, ◌-◌, ◌<◌, ◌≤◌, ◌^◌, length, IfOk, IfErr, OnOk, OnErr, None, Some, option_copied};
ghost use Rattle.farm_model.specs.Numbered.{item_of};
ghost use Rattle.farm_model.specs.Rejudgings.{busy_refusal, how_closed, members_of, state_of, state_when};
ghost use Rattle.rejudge_book.specs.declared.faults.BookFault.TheVariants as fault;
ghost use Rattle.rejudge_book.specs.Refusals.{AreKnown, IsFault, close_refusal, prepare_refusal, reserve_refusal};
ghost use Rattle.rejudge_book.specs.Book.{empty_book, with_closed, with_prepared};

use crate::faults::{BookFault, CloseFault};
use crate::lists::{first_marked, first_twice, mark, write_members};
use farm_kinds::{How, NoMemory};
use farm_model::{Member, Members, RejudgeState, Rejudging, item_of};
use std::alloc::Global;
use std::marker::Model;
use std::mem;

/// The rejudgings and the submissions, both numbered from 1. A submission is in at most one rejudging that
/// is open.
///
/// Contracts see the rejudgings, the number of submissions, and how much room there is for more of both.
#[derive(Drop)]
pub struct RejudgeBook {
    alloc: Global,
    rejudgings: Vec<Rejudging>,
    /// For each submission the number of the open rejudging that it is in, or 0.
    marks: Vec<u32>,
    /// For each submission a place of its own, where it is written at which index of a list it stood.
    places: Vec<usize>,
    /// The room for the members of the next rejudging.
    ready: Vec<Member>,
}

impl Model for RejudgeBook {
    ghost use Rattle.rejudge_book.specs.Book.{Book};

    ghost Value = { Book };

    ghost use Rattle.rejudge_book.specs.BookLayout.{book_value, IsBookLayout};

    ghost view = { book_value };

    ghost invariant = { IsBookLayout };
}

impl RejudgeBook {
    /// A book of no rejudgings and no submissions. It takes memory when `reserve`, `add_submission` or
    /// `prepare` is called.
    pub fn new(alloc: Global) -> RejudgeBook
        ensures { result ≡ empty_book }
    {
        RejudgeBook {
            alloc,
            rejudgings: Vec::new(alloc),
            marks: Vec::new(alloc),
            places: Vec::new(alloc),
            ready: Vec::new(alloc),
        }
    }

    /// How many submissions are known.
    pub fn submissions(&self) -> usize
        ensures { result ≡ self.now.submissions }
    {
        self.marks.len()
    }

    /// How many rejudgings were prepared.
    pub fn rejudgings(&self) -> usize
        ensures { result ≡ length self.now.rejudgings }
    {
        self.rejudgings.len()
    }

    /// How many more submissions take no memory. A farm, which makes room before each event, does not ask; whoever uses the
    /// book alone may.
    pub fn spare(&self) -> usize
        ensures { result ≡ self.now.spare }
    {
        self.marks.capacity().min(self.places.capacity()) - self.marks.len()
    }

    /// The number of members up to which a rejudging takes no memory.
    pub fn reserved(&self) -> usize
        ensures { result ≡ self.now.reserved }
    {
        if self.rejudgings.len() < self.rejudgings.capacity() {
            self.ready.capacity()
        } else {
            0
        }
    }

    /// Adds a submission, which has the next number and is in no rejudging. At `NoMemory` nothing changes.
    pub fn add_submission(&mut self) -> Result<(), NoMemory>
        ensures added { OnOk result (self.new.submissions ≡ self.old.submissions + 1) }
        ensures rejudgings { self.new.rejudgings ≡ self.old.rejudgings }
        ensures reserved { self.new.reserved ≡ self.old.reserved }
        ensures room { self.old.spare ≤ self.new.spare + 1 }
        ensures unchanged { OnErr result (self.new ≡ self.old) }
        ensures needed { OnErr result (self.old.spare ≡ 0) }
    {
        self.reserve_submission()?;
        self.add_reserved_submission();
        Ok(())
    }

    /// Adds a submission, for which there is room.
    pub fn add_reserved_submission(&mut self)
        requires room { 1 ≤ self.old.spare }
        ensures added { self.new.submissions ≡ self.old.submissions + 1 }
        ensures rejudgings { self.new.rejudgings ≡ self.old.rejudgings }
        ensures reserved { self.new.reserved ≡ self.old.reserved }
        ensures room { self.old.spare ≤ self.new.spare + 1 }
    {
        self.marks.push_reserved(0);
        self.places.push_reserved(0);
    }

    /// Makes room for one more submission and for a rejudging of the submissions `members`, where this rejudging
    /// could be prepared. Nothing but the room changes, and room is never given back.
    pub fn reserve(&mut self, members: &[u32]) -> Result<(), BookFault>
        requires known { AreKnown self.old.submissions members.now }
        ensures fault { IfErr result (IsFault (reserve_refusal self.old.rejudgings members.now) (1 ≤ self.old.spare → self.old.reserved < length members.now)) }
        ensures accepted { OnOk result (reserve_refusal self.old.rejudgings members.now ≡ None) }
        ensures submission { OnOk result (1 ≤ self.new.spare) }
        ensures enough { OnOk result (length members.now ≤ self.new.reserved) }
        ensures rejudgings { self.new.rejudgings ≡ self.old.rejudgings }
        ensures submissions { self.new.submissions ≡ self.old.submissions }
        ensures spare_grows { self.old.spare ≤ self.new.spare }
        ensures reserved_grows { self.old.reserved ≤ self.new.reserved }
    {
        if let Some(fault) = self.refusal(members) {
            return Err(fault);
        }
        let Ok(()) = self.reserve_submission() else {
            return Err(BookFault::NoMemory);
        };
        let Ok(()) = self.reserve_members(members.len()) else {
            return Err(BookFault::NoMemory);
        };
        Ok(())
    }

    /// Prepares a rejudging of these submissions, each with the judging that is current now and a new one,
    /// and answers its number. The new judgings are numbered from `first` in the order of the list. The
    /// rejudging is open. At a fault nothing changes. A farm reserves first and calls `prepare_reserved`; this is for whoever
    /// uses the book alone.
    pub fn prepare(&mut self, members: &[u32], olds: &[u32], first: u32) -> Result<u32, BookFault>
        requires known { AreKnown self.old.submissions members.now }
        requires paired { length members.now ≡ length olds.now }
        requires few { length self.old.rejudgings < 10000 }
        requires numbered { first + length members.now < 2 ^ 32 }
        ensures fault { IfErr result (IsFault (prepare_refusal self.old.rejudgings members.now) (self.old.reserved < length members.now)) }
        ensures accepted { OnOk result (prepare_refusal self.old.rejudgings members.now ≡ None) }
        ensures number { IfOk result (λ number. number ≡ length self.old.rejudgings + 1) }
        ensures prepared { OnOk result (self.new ≡ with_prepared self.old members.now olds.now first) }
        ensures unchanged { OnErr result (self.new ≡ self.old) }
    {
        if members.is_empty() {
            return Err(BookFault::EmptySet);
        }
        if let Some(fault) = self.refusal(members) {
            return Err(fault);
        }
        let Ok(()) = self.reserve_members(members.len()) else {
            return Err(BookFault::NoMemory);
        };
        Ok(self.prepare_reserved(members, olds, first))
    }

    /// Closes the rejudging of this number. It takes no memory. At a fault nothing changes. A farm, which refuses first, calls
    /// `close_open`; this is for whoever uses the book alone.
    pub fn close(&mut self, number: u32, how: How) -> Result<(), CloseFault>
        ensures fault { IfErr result (λ fault. close_refusal self.old.rejudgings number ≡ Some fault) }
        ensures accepted { OnOk result (close_refusal self.old.rejudgings number ≡ None) }
        ensures closed { OnOk result (self.new ≡ with_closed self.old number how) }
        ensures unchanged { OnErr result (self.new ≡ self.old) }
    {
        let Some(rejudging) = item_of(&self.rejudgings, number) else {
            return Err(CloseFault::NoRejudging);
        };
        if let Some(how) = how_closed(rejudging.state) {
            return Err(CloseFault::Closed { how });
        }
        self.close_open(number, how);
        Ok(())
    }

    /// Closes the open rejudging of this number.
    pub fn close_open(&mut self, number: u32, how: How)
        requires { close_refusal self.old.rejudgings number ≡ None }
        ensures { self.new ≡ with_closed self.old number how }
    {
        let Some(rejudging) = item_of(&self.rejudgings, number) else {
            return;
        };
        mark(&mut self.marks, rejudging.members.as_slice(), 0);
        self.rejudgings[number as usize - 1].state = state_when(how);
    }

    /// The members of the rejudging of this number. None where no rejudging has it.
    pub fn members(&self, number: u32) -> Option<&Members>
        ensures { option_copied result ≡ members_of self.now.rejudgings number }
    {
        item_of(&self.rejudgings, number).map(|rejudging| &rejudging.members)
    }

    /// Where the rejudging of this number stands. None where no rejudging has it.
    pub fn state(&self, number: u32) -> Option<RejudgeState>
        ensures { result ≡ state_of self.now.rejudgings number }
    {
        item_of(&self.rejudgings, number).map(|rejudging| rejudging.state)
    }

    /// Why no rejudging of these submissions can be prepared, but that the list is empty. Nothing changes.
    pub fn refusal(&mut self, members: &[u32]) -> Option<BookFault>
        requires known { AreKnown self.old.submissions members.now }
        ensures refusal { result ≡ reserve_refusal self.old.rejudgings members.now }
        ensures unchanged { self.new ≡ self.old }
    {
        if let Some(submission) = first_twice(&mut self.places, members) {
            return Some(BookFault::Twice { submission });
        }
        first_marked(&self.marks, members)
    }

    /// Prepares a rejudging, as `prepare` does, for which there is room and no refusal, and answers its
    /// number.
    pub fn prepare_reserved(&mut self, members: &[u32], olds: &[u32], first: u32) -> u32
        requires known { AreKnown self.old.submissions members.now }
        requires some { 0 < length members.now }
        requires accepted { reserve_refusal self.old.rejudgings members.now ≡ None }
        requires enough { length members.now ≤ self.old.reserved }
        requires paired { length members.now ≡ length olds.now }
        requires few { length self.old.rejudgings < 10000 }
        requires numbered { first + length members.now < 2 ^ 32 }
        ensures number { result ≡ length self.old.rejudgings + 1 }
        ensures prepared { self.new ≡ with_prepared self.old members.now olds.now first }
    {
        let number = self.rejudgings.len() as u32 + 1;
        let mut list = mem::replace(&mut self.ready, Vec::new(self.alloc));
        write_members(&mut list, members, olds, first);
        mark(&mut self.marks, list.as_slice(), number);
        self.rejudgings.push_reserved(Rejudging {
            members: Members::from_vec(list),
            state: RejudgeState::Open,
        });
        number
    }

    /// Makes room for one more submission. At `NoMemory` nothing changes.
    pub fn reserve_submission(&mut self) -> Result<(), NoMemory>
        ensures enough { OnOk result (1 ≤ self.new.spare) }
        ensures rejudgings { self.new.rejudgings ≡ self.old.rejudgings }
        ensures submissions { self.new.submissions ≡ self.old.submissions }
        ensures reserved { self.new.reserved ≡ self.old.reserved }
        ensures grows { self.old.spare ≤ self.new.spare }
        ensures unchanged { OnErr result (self.new ≡ self.old) }
        ensures needed { OnErr result (self.old.spare ≡ 0) }
    {
        self.marks.reserve(1)?;
        self.places.reserve(1)?;
        Ok(())
    }

    /// Makes room for a rejudging of `members` members. At `NoMemory` nothing changes.
    pub fn reserve_members(&mut self, members: usize) -> Result<(), NoMemory>
        ensures enough { OnOk result (members ≤ self.new.reserved) }
        ensures rejudgings { self.new.rejudgings ≡ self.old.rejudgings }
        ensures submissions { self.new.submissions ≡ self.old.submissions }
        ensures spare { self.new.spare ≡ self.old.spare }
        ensures grows { self.old.reserved ≤ self.new.reserved }
        ensures unchanged { OnErr result (self.new ≡ self.old) }
        ensures needed { OnErr result (self.old.reserved < members) }
    {
        if members <= self.reserved() {
            return Ok(());
        }
        // The room for the members comes first: it does not count before there is a place for the
        // rejudging.
        self.ready.reserve(members)?;
        self.rejudgings.reserve(1)?;
        Ok(())
    }
}

/// How a rejudging in this state was closed. None where it is open.
fn how_closed(state: RejudgeState) -> Option<How>
    ensures { result ≡ how_closed state }
{
    match state {
        RejudgeState::Open => None,
        RejudgeState::Applied => Some(How::Applied),
        RejudgeState::Cancelled => Some(How::Cancelled),
    }
}

/// The state of a rejudging that was closed in this way.
fn state_when(how: How) -> RejudgeState
    ensures { result ≡ state_when how }
{
    match how {
        How::Applied => RejudgeState::Applied,
        How::Cancelled => RejudgeState::Cancelled,
    }
}
