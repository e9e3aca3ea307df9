ghost use Rattle.std.specs.Prelude.{◌≡◌, ◌+◌, ◌^◌, ◌<◌, ◌≤◌, length, IfOk};
ghost use Rattle.std.specs.Vec.{vec_capacity};
ghost use Rattle.farm_board.specs.Histories.{opening_board, next_board, without, IsReply};
ghost use Rattle.farm_board.specs.Passes.{call_of};
ghost use Rattle.farm_board.specs.Trusts.{IsAdmitted, IsTrusted, AreBacked, AreAdmitted, AdmitsOne, NeverDiffers};
ghost use Rattle.farm_board.specs.declared.entries.HistoryEntry.TheVariants as entry;

use crate::entries::CallJournal;
use crate::trust::Admission;
use farm_core::Farm;
use farm_kinds::{Event, NoMemory, Reply};
use std::alloc::Global;
use std::marker::{Model, PhantomData};

/// What a board keeps: the farm, the numbers of the passes that are out, the last number that was given, and the journal.
#[derive(Drop)]
pub struct Contents {
    farm: Box<Farm>,
    seats: u16,
    out: Vec<u64>,
    given: u64,
    journal: Option<CallJournal>,
}

impl Model for Contents {
    ghost use Rattle.farm_board.specs.BoardState.{BoardState};

    ghost Value = { BoardState };

    ghost use Rattle.std.specs.Prelude.{◌≤◌};
    ghost use Rattle.std.specs.Vec.{vec_capacity};

    ghost view = { λ a. record { state = a.farm.value; seats = a.seats; out = a.out.items; given = a.given; journal = a.journal } };

    ghost invariant = { λ a. a.seats ≤ vec_capacity a.out };
}

impl Contents {
    /// At the start pass 0 alone is out.
    pub(crate) fn new(
        alloc: Global,
        farm: Farm,
        seats: u16,
        journal: bool,
    ) -> Result<Contents, NoMemory>
        requires { 1 ≤ seats }
        ensures { IfOk result (λ contents. contents ≡ opening_board farm seats journal) }
    {
        let farm = boxed(alloc, farm)?;
        let mut out = Vec::with_capacity(alloc, usize::from(seats))?;
        out.push_reserved(0);
        let journal = if journal {
            Some(CallJournal::new(alloc))
        } else {
            None
        };
        Ok(Contents {
            farm,
            seats,
            out,
            given: 0,
            journal,
        })
    }

    fn call(&mut self, number: u64, event: &Event) -> Reply
        ensures reply { IsReply self.old event.now result }
        ensures next { self.new ≡ next_board self.old (entry.Call (call_of number event.now result)) }
    {
        match &mut self.journal {
            Some(history) => history.note(&mut self.farm, number, event),
            None => self.farm.step(event),
        }
    }

    fn split(&mut self) -> u64
        requires room { length self.old.out < self.old.seats }
        requires few { self.old.given ≤ 2 ^ 62 }
        ensures number { result ≡ self.old.given + 1 }
        ensures next { self.new ≡ next_board self.old (entry.Split 0 result) }
    {
        self.given += 1;
        self.out.push_reserved(self.given);
        self.given
    }

    fn join(&mut self, old: u64)
        ensures { self.new ≡ next_board self.old (entry.Join 0 old) }
    {
        remove_number(&mut self.out, old);
    }

    fn into_parts(self) -> (Farm, Option<CallJournal>)
        ensures { (result.0 ≡ self.state) × (result.1 ≡ self.journal) }
    {
        let Contents { farm, journal, .. } = self;
        (Box::into_inner(farm), journal)
    }
}

/// The value on the heap.
fn boxed<T: Drop>(alloc: Global, value: T) -> Result<Box<T>, NoMemory>
    ensures { IfOk result (λ b. b.value ≡ value) }
{
    match Box::new(alloc, value) {
        Ok(b) => Ok(b),
        Err(_) => Err(NoMemory),
    }
}

fn remove_number(numbers: &mut Vec<u64>, number: u64)
    ensures items { numbers.new.items ≡ without number numbers.old.items }
    ensures capacity { vec_capacity numbers.new ≡ vec_capacity numbers.old }
{
    for k in 0..numbers.len() {
        if numbers[k] == number {
            numbers.remove(k);
            return;
        }
    }
}

/// What a board keeps, each result of which is admitted.
#[derive(Drop)]
pub struct TrustedContents<A: Admission> {
    pub contents: Contents,
    pub of: PhantomData<A>,
    ghost trusted: { IsTrusted A.admits contents },
}

impl<A: Admission> TrustedContents<A> {
    pub(crate) fn new(contents: Contents) -> TrustedContents<A>
        requires { IsTrusted A.admits contents }
        ensures { result.contents ≡ contents }
    {
        TrustedContents {
            contents,
            of: PhantomData,
        }
    }

    /// The farm answers the event. Where memory runs out, nothing changes.
    pub(crate) fn call(&mut self, number: u64, event: &Event) -> Reply
        requires { IsAdmitted A.admits event.now }
        ensures reply { IsReply self.old.contents event.now result }
        ensures next { self.new.contents ≡ next_board self.old.contents (entry.Call (call_of number event.now result)) }
        ensures agrees { AdmitsOne A.admits → NeverDiffers event.now result }
    {
        self.contents.call(number, event)
    }

    /// Gives the next number to a new pass.
    pub(crate) fn split(&mut self) -> u64
        requires room { length self.old.contents.out < self.old.contents.seats }
        requires few { self.old.contents.given ≤ 2 ^ 62 }
        ensures number { result ≡ self.old.contents.given + 1 }
        ensures next { self.new.contents ≡ next_board self.old.contents (entry.Split 0 result) }
    {
        self.contents.split()
    }

    /// The pass of this number is out no more.
    pub(crate) fn join(&mut self, old: u64)
        ensures { self.new.contents ≡ next_board self.old.contents (entry.Join 0 old) }
    {
        self.contents.join(old);
    }

    /// The farm and the journal.
    pub(crate) fn into_parts(self) -> (Farm, Option<CallJournal>)
        ensures parts { (result.0 ≡ self.contents.state) × (result.1 ≡ self.contents.journal) }
        ensures trusted { AreBacked A.admits result.0 × AreAdmitted A.admits result.1 }
    {
        let TrustedContents { contents, of: _ } = self;
        contents.into_parts()
    }
}
