ghost use Rattle.std.specs.Prelude.{◌≡◌, ◌≢◌};
ghost use Rattle.stored_events.specs.declared.faults.OpenFault.TheVariants as fault;
ghost use Rattle.record_store.specs.declared.records.ReadFault.TheVariants as read_fault;
ghost use Rattle.farm_journal.specs.declared.faults.AddFault.TheVariants as add_fault;

use farm_kinds::NoMemory;
use record_store::ReadFault;
use stored_events::OpenFault;

/// What the reading of a record failed with.
pub(crate) fn open_fault(read: ReadFault) -> OpenFault
    ensures disk { result ≡ fault.Disk → read ≡ read_fault.Disk }
    ensures only { result ≢ fault.NoMemory → result ≡ fault.Disk }
{
    match read {
        ReadFault::Disk => OpenFault::Disk,
        ReadFault::NoMemory => OpenFault::NoMemory,
    }
}

/// Why an event was not added to a store.
#[derive(Clone, Copy, Debug, PartialEq, Eq)]
pub enum AddFault {
    /// The disk failed at an earlier event: the journal has to be opened again.
    Spent,
    /// The record would end at the offset `end`, past the limit. Nothing was written.
    Full { end: u64 },
    /// The disk failed, and its count of faults rose. The event may be stored or not.
    Disk,
    /// No memory was left. Nothing was written.
    NoMemory,
}

impl From<NoMemory> for AddFault {
    ghost from_gives = { λ _ given. given ≡ add_fault.NoMemory };

    fn from(_: NoMemory) -> Self {
        AddFault::NoMemory
    }
}
