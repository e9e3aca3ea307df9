ghost use Rattle.std.specs.Prelude.{◌≡◌};
ghost use Rattle.stored_events.specs.declared.faults.OpenFault.TheVariants as fault;

use farm_kinds::NoMemory;
use record_store::DiskErr;

/// Why a store was not opened.
#[derive(Clone, Copy, Debug, PartialEq, Eq)]
pub enum OpenFault {
    /// The disk failed, and its count of faults rose.
    Disk,
    /// The store is of the configuration with the SHA-256 digest `kept`. Nothing was written to it.
    OtherConfig { kept: [u8; 32] },
    /// This record, from 1 on, is none of this farm's: the first is no configuration's, or the line of a later one is not
    /// what is written of an event that changes the farm where it stands. Where no line is held, the file is somebody's
    /// other one. Nothing was written to it.
    BadRecord { number: u64 },
    /// No memory was left.
    NoMemory,
}

impl From<DiskErr> for OpenFault {
    ghost from_gives = { λ _ given. given ≡ fault.Disk };

    fn from(_: DiskErr) -> Self {
        OpenFault::Disk
    }
}

impl From<NoMemory> for OpenFault {
    ghost from_gives = { λ _ given. given ≡ fault.NoMemory };

    fn from(_: NoMemory) -> Self {
        OpenFault::NoMemory
    }
}
