//! A disk that holds one file.
ghost use Rattle.std.specs.Prelude.{◌≡◌, ◌≤◌, ◌+◌, Bool, IsTrue, ℕ, List, Option, Some, length, take, drop, IfOk, OnOk};
ghost use Rattle.record_store.specs.Model.{DiskTime, Opening, IsImage, Writes, Syncs, Passes, HasCause};

/// Why a call of a disk failed.
#[derive(Clone, Copy, Debug, PartialEq, Eq)]
pub enum DiskErr {
    /// The disk failed, and its count of faults rose.
    Failed,
}

/// What a file is opened for.
#[derive(Clone, Copy, Debug, PartialEq, Eq)]
pub enum Access {
    /// It may be read and written. A missing file is made, with no bytes.
    Change,
    /// It is only read, so it has to be there. A disk need not write it.
    Read,
}

/// A disk that holds one file, which is opened by its path.
///
/// Its contracts are the model of what a crash may leave. A write is pending until a sync succeeds. While it is, a
/// crash may leave any bytes where it wrote and past the old end, and any length between the synced one and the
/// greatest that was written. What was synced stands everywhere else. A disk that `tells` is held to this; one over a
/// file of the system, which cannot be, tells nothing.
pub trait Disk {
    /// Whether the disk tells its moments.
    ghost tells: { Self → Bool };
    /// Its moments, where it tells them. Each write and each sync is one; no other call is.
    ghost time: { Self → DiskTime };
    /// The path that was opened last, and what for.
    ghost opened: { Self → Option Opening };
    /// How often it has failed.
    ghost faults: { Self → ℕ };

    /// Opens the file at the path.
    fn open(&mut self, path: &str, access: Access) -> Result<(), DiskErr>
        ensures path { OnOk result (opened self.new ≡ Some (record { path = path.now; access = access })) }
        ensures tells { tells self.new ≡ tells self.old }
        ensures still { IsTrue (tells self.old) → time self.new ≡ time self.old }
        ensures cause { HasCause (faults self.old) (faults self.new) result };

    /// How many bytes the file has.
    fn len(&mut self) -> Result<u64, DiskErr>
        ensures answer { IsTrue (tells self.old) → IfOk result (λ len. len ≡ length (time self.old).now.seen) }
        ensures path { opened self.new ≡ opened self.old }
        ensures tells { tells self.new ≡ tells self.old }
        ensures still { IsTrue (tells self.old) → time self.new ≡ time self.old }
        ensures cause { HasCause (faults self.old) (faults self.new) result };

    /// Fills the room with the bytes from the offset on.
    fn read_at(&mut self, at: u64, room: &mut [u8]) -> Result<(), DiskErr>
        requires { IsTrue (tells self.old) → at + length room.old ≤ length (time self.old).now.seen }
        ensures answer { IsTrue (tells self.old)
            → OnOk result (room.new ≡ take (length room.old) (drop at (time self.old).now.seen)) }
        ensures path { opened self.new ≡ opened self.old }
        ensures tells { tells self.new ≡ tells self.old }
        ensures still { IsTrue (tells self.old) → time self.new ≡ time self.old }
        ensures cause { HasCause (faults self.old) (faults self.new) result };

    /// Writes the bytes from the offset on, also past the end. What a read gives then is one of the disk's images, also
    /// where the write failed.
    fn write_at(&mut self, at: u64, bytes: &[u8]) -> Result<(), DiskErr>
        requires { IsTrue (tells self.old) → at ≤ length (time self.old).now.seen }
        ensures path { opened self.new ≡ opened self.old }
        ensures tells { tells self.new ≡ tells self.old }
        ensures time { IsTrue (tells self.old) → Passes (Writes at bytes.now result) (time self.old) (time self.new) }
        ensures image { IsTrue (tells self.new) → IsImage (time self.new).now (time self.new).now.seen }
        ensures cause { HasCause (faults self.old) (faults self.new) result };

    /// Waits until all that was written is on the disk: a crash behind it leaves what a read gives.
    fn sync(&mut self) -> Result<(), DiskErr>
        ensures path { opened self.new ≡ opened self.old }
        ensures tells { tells self.new ≡ tells self.old }
        ensures time { IsTrue (tells self.old) → Passes (Syncs result) (time self.old) (time self.new) }
        ensures cause { HasCause (faults self.old) (faults self.new) result };
}
