//! One write that is on the disk before anything else is done.
ghost use Rattle.std.specs.Prelude.{◌≡◌, ◌≤◌, IsTrue, length, OnOk};
ghost use Rattle.record_store.specs.Model.{AtEachMoment, IsQuiet, HasCause, overlaid};
ghost use Rattle.record_store.specs.Held.{Torn};

use crate::disk::{Disk, DiskErr};

/// Writes the bytes from the offset on, and syncs. A crash at any moment of it tears this one write at most.
pub(crate) fn write_durably<Y: Disk>(disk: &mut Y, at: u64, bytes: &[u8]) -> Result<(), DiskErr>
    requires quiet { IsTrue (Y.tells disk.old) → IsQuiet (Y.time disk.old).now }
    requires inside { IsTrue (Y.tells disk.old) → at ≤ length (Y.time disk.old).now.seen }
    ensures path { Y.opened disk.new ≡ Y.opened disk.old }
    ensures tells { Y.tells disk.new ≡ Y.tells disk.old }
    ensures moments { IsTrue (Y.tells disk.old)
        → AtEachMoment (Torn at (length bytes.now) (Y.time disk.old).now.seen) (Y.time disk.old) (Y.time disk.new) }
    ensures done { IsTrue (Y.tells disk.old) → OnOk result (IsQuiet (Y.time disk.new).now
        × ((Y.time disk.new).now.seen ≡ overlaid (Y.time disk.old).now.seen at bytes.now)) }
    ensures cause { HasCause (Y.faults disk.old) (Y.faults disk.new) result }
{
    disk.write_at(at, bytes)?;
    disk.sync()
}
