//! An open store, to which events are added.
ghost use Rattle.std.specs.Prelude.{◌≡◌, ◌≤◌, ◌<◌, ◌+◌, ◌-◌, ◌^◌, ◌↔◌, ◌++◌, ◌∷◌, [], ℕ, List, length, min, true, false, IsTrue, OnOk, OnErr, IfOk, IfErr, IsErrOf, Ok};
ghost use Rattle.record_store.specs.Model.{AtEachMoment, IsQuiet, OnlySynced, Rose};
ghost use Rattle.record_store.specs.Held.{held, records_of, Rests, IsBeforeOrAfter};
ghost use Rattle.farm_model.specs.Texts.{event_text};
ghost use Rattle.stored_events.specs.Opening.{opened_of, opened_lines, HoldsOrBegins};
ghost use Rattle.farm_journal.specs.Faults.{HasOpenCause, IsTold, IsOfFile};

use crate::faults::AddFault;
use crate::opening::open_file;
use crate::player::Player;
use command_text::push_event;
use farm_kinds::{Event, NoMemory};
use record_store::{Disk, append_records, push_record};
use std::alloc::Global;
use std::marker::Model;
use stored_events::OpenFault;

/// The bytes up to which the records of a store go at most.
pub const STORE_LIMIT: u64 = 1_073_741_824;

/// An open store.
#[derive(Drop)]
pub struct Journal {
    end: u64,
    limit: u64,
    spent: bool,
    /// The text and the record of the event that is added, of which only the room is kept.
    text: Vec<u8>,
    batch: Vec<u8>,
}

impl Model for Journal {
    ghost use Rattle.farm_journal.specs.JournalValue.{JournalValue};

    ghost Value = { JournalValue };

    ghost use Rattle.std.specs.Prelude.{◌<◌, ◌^◌};

    ghost view = { λ j. record { end = j.end; limit = j.limit; spent = j.spent } };

    ghost invariant = { λ j. j.limit < 2 ^ 63 };
}

impl Journal {
    /// Opens the store on the disk, whose file is open, for the configuration with this SHA-256 digest: plays the events
    /// that it holds into the farm, which is new, and closes its end. Where no line is held, the store begins with the
    /// record of the configuration. Records go up to `limit` bytes. At a fault some of the events may have been played.
    ///
    /// A crash at any moment of it leaves what the store held, or, where that was nothing, its first record.
    pub fn open<Y: Disk, P: Player>(
        alloc: Global,
        disk: &mut Y,
        config: &[u8; 32],
        farm: &mut P,
        limit: u64,
    ) -> Result<Journal, OpenFault>
        requires { limit < 2 ^ 63 }

        // The farm is in the state to which the held events lead, and the journal at their end.
        ensures opened { IsTrue (Y.tells disk.old) → IfOk result (λ j. (opened_of config.now (P.state farm.old) (Y.time disk.old).now.seen ≡ Ok (P.state farm.new))
            × Rests (Y.time disk.new).now (opened_lines config.now (held (Y.time disk.old).now.seen)) j.end) }
        ensures journal { IfOk result (λ j. (j.limit ≡ limit) × (j.spent ≡ false)) }

        // What is wrong with the file is told, and then nothing is written.
        ensures bad { IsTrue (Y.tells disk.old)
            → IfErr result (λ f. IsTold f (opened_of config.now (P.state farm.old) (Y.time disk.old).now.seen)) }
        ensures unwritten { IsTrue (Y.tells disk.old) → IfErr result (λ f. IsOfFile f → OnlySynced (Y.time disk.old) (Y.time disk.new)) }

        // Each crash leaves what was held, or begins the store.
        ensures moments { IsTrue (Y.tells disk.old) → IsQuiet (Y.time disk.old).now
            → AtEachMoment (HoldsOrBegins config.now (held (Y.time disk.old).now.seen)) (Y.time disk.old) (Y.time disk.new) }

        ensures path { Y.opened disk.new ≡ Y.opened disk.old }
        ensures tells { Y.tells disk.new ≡ Y.tells disk.old }
        ensures cause { HasOpenCause (Y.faults disk.old) (Y.faults disk.new) result }
    {
        match open_file(alloc, disk, config, farm) {
            Ok(end) => Ok(Journal {
                end,
                limit,
                spent: false,
                text: Vec::new(alloc),
                batch: Vec::new(alloc),
            }),
            Err(fault) => Err(fault),
        }
    }

    /// Adds an event. At `Ok` it is stored: each crash from then on leaves it.
    ///
    /// The disk is the one on which this journal was opened, and since then only this journal's calls wrote to it. An event
    /// that a line of a script says is short enough.
    pub fn add<Y: Disk>(&mut self, disk: &mut Y, event: &Event) -> Result<(), AddFault>
        requires short { length (event_text event.now) < 2 ^ 16 }
        requires stands { IsTrue (Y.tells disk.old) → self.old.spent ≡ false
            → Rests (Y.time disk.old).now (held (Y.time disk.old).now.seen) self.old.end }

        // At each moment of it a crash leaves what was held, with the event or without it; behind it, with the event.
        ensures moments { IsTrue (Y.tells disk.old) → self.old.spent ≡ false
            → AtEachMoment (IsBeforeOrAfter (held (Y.time disk.old).now.seen) (event_text event.now ∷ [])) (Y.time disk.old) (Y.time disk.new) }
        ensures added { IsTrue (Y.tells disk.old)
            → OnOk result (Rests (Y.time disk.new).now (held (Y.time disk.old).now.seen ++ event_text event.now ∷ []) self.new.end) }
        ensures end { OnOk result (self.new.end ≡ self.old.end + 3 + length (event_text event.now)) }

        // Each fault, and when it comes.
        ensures spent { IsErrOf result AddFault.Spent ↔ (self.old.spent ≡ true) }
        ensures spends { IsErrOf result AddFault.Disk → self.new.spent ≡ true }
        ensures fresh { ¬ (IsErrOf result AddFault.Disk) → self.new.spent ≡ self.old.spent }
        ensures full { (end : ℕ) → IsErrOf result (AddFault.Full end) → (self.old.spent ≡ false)
            × (self.old.limit < self.old.end + 3 + length (event_text event.now))
            × (end ≡ min (self.old.end + 3 + length (event_text event.now)) (2 ^ 64 - 1)) }
        ensures fits { OnOk result (self.old.end + 3 + length (event_text event.now) ≤ self.old.limit) }
        ensures fits_disk { IsErrOf result AddFault.Disk → self.old.end + 3 + length (event_text event.now) ≤ self.old.limit }
        ensures unwritten { OnErr result (self.new.end ≡ self.old.end) }
        ensures still { ¬ (IsErrOf result AddFault.Disk) → OnErr result (disk.new ≡ disk.old) }
        ensures limit { self.new.limit ≡ self.old.limit }
        ensures cause { IsErrOf result AddFault.Disk → Rose (Y.faults disk.old) (Y.faults disk.new) }
        ensures later { Y.faults disk.old ≤ Y.faults disk.new }
        ensures path { Y.opened disk.new ≡ Y.opened disk.old }
        ensures tells { Y.tells disk.new ≡ Y.tells disk.old }
    {
        if self.spent {
            return Err(AddFault::Spent);
        }
        make_text(&mut self.text, event)?;
        let end = self.end.saturating_add(self.text.len() as u64 + 3);
        if end > self.limit {
            return Err(AddFault::Full { end });
        }
        make_batch(&mut self.batch, self.text.as_slice())?;
        match append_records(disk, self.end, self.batch.as_slice()) {
            Ok(()) => {
                self.end = end;
                Ok(())
            }
            Err(_) => {
                self.spent = true;
                Err(AddFault::Disk)
            }
        }
    }
}

/// Makes the text of an event, in place of what was there.
fn make_text(text: &mut Vec<u8>, event: &Event) -> Result<(), NoMemory>
    ensures { OnOk result (text.new.items ≡ event_text event.now) }
{
    text.clear();
    push_event(text, event)
}

/// Makes the batch of one line, in place of what was there.
pub(crate) fn make_batch(batch: &mut Vec<u8>, line: &[u8]) -> Result<(), NoMemory>
    requires { length line.now < 2 ^ 16 }
    ensures { OnOk result (batch.new.items ≡ records_of (line.now ∷ []) ++ 0 ∷ []) }
{
    batch.clear();
    match push_record(batch, line) {
        Ok(()) => close_batch(batch),
        Err(_) => Err(NoMemory),
    }
}

/// Puts a closed gate behind a batch.
fn close_batch(batch: &mut Vec<u8>) -> Result<(), NoMemory>
    ensures { OnOk result (batch.new.items ≡ batch.old.items ++ 0 ∷ []) }
{
    batch.push(0).map_err(|_| NoMemory)
}
