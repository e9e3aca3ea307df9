ghost use Rattle.std.specs.Prelude.{◌≡◌, ◌≢◌};
ghost use Rattle.record_store.specs.declared.records.ReadFault.TheVariants as read_fault;
ghost use Rattle.stored_events.specs.declared.faults.OpenFault.TheVariants as open_fault;
ghost use Rattle.store_listing.specs.declared.faults.ListFault.TheVariants as list_fault;

use record_store::ReadFault;
use stored_events::OpenFault;

/// Why a store was not listed.
#[derive(Clone, Copy, Debug, PartialEq, Eq)]
pub enum ListFault {
    /// The disk failed, and its count of faults rose. A prefix of the text was written.
    Disk,
    /// The file is no store. Nothing was written.
    NoStore,
    /// The output failed. A prefix of the text was written.
    WriteFault,
    /// No memory was left. A prefix of the text was written.
    NoMemory,
}

/// What the reading of a record failed with.
pub(crate) fn not_read(read: ReadFault) -> ListFault
    ensures disk { result ≡ list_fault.Disk → read ≡ read_fault.Disk }
    ensures only { result ≢ list_fault.NoMemory → result ≡ list_fault.Disk }
{
    match read {
        ReadFault::Disk => ListFault::Disk,
        ReadFault::NoMemory => ListFault::NoMemory,
    }
}

/// What the reading of a file that holds no record failed with.
pub(crate) fn not_looked_at(fault: OpenFault) -> ListFault
    ensures disk { result ≡ list_fault.Disk → fault ≡ open_fault.Disk }
    ensures only { result ≢ list_fault.NoMemory → result ≡ list_fault.Disk }
{
    match fault {
        OpenFault::Disk => ListFault::Disk,
        _ => ListFault::NoMemory,
    }
}
