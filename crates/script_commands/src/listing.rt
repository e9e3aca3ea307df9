ghost use Rattle.std.specs.Prelude.{◌≡◌, ◌≢◌, ◌⊎◌, IsTrue};
ghost use Rattle.farm_io.specs.Streams.{Rose};
ghost use Rattle.store_listing.specs.Listing.{is_store};
ghost use Rattle.script_commands.specs.Stored.{ListEnds};

use crate::flaw::refuse_store;
use exit_status::{Exit, StoreFlaw};
use farm_io::Sink;
use record_store::{Access, Disk};
use std::alloc::Global;
use store_listing::{ListFault, list_store};

/// `farm store`: writes the lines of the store at the path. The file is only read, and is not made where it is missing.
pub fn list<K: Sink, Y: Disk>(alloc: Global, path: &str, out: &mut K, disk: &mut Y) -> Exit
    ensures command { result ≢ Exit.Usage }
    ensures door_fault { result ≢ Exit.DoorFault }
    ensures tree_fault { result ≢ Exit.TreeFault }
    ensures read_fault { result ≢ Exit.ReadFault }
    ensures ends { ListEnds path.now
        (record { tells = Y.tells disk.old; old = record { time = Y.time disk.old; opened = Y.opened disk.old; faults = Y.faults disk.old }; new = record { time = Y.time disk.new; opened = Y.opened disk.new; faults = Y.faults disk.new } })
        (K.held out.old) (K.held out.new) result }
    ensures write_fault { result ≡ Exit.WriteFault → Rose (K.faults out.old) (K.faults out.new) }
    ensures store_fault { result ≡ Exit.StoreFault → Rose (Y.faults disk.old) (Y.faults disk.new) }
    ensures complete { IsTrue (Y.tells disk.old) → IsTrue (is_store (Y.time disk.old).now.seen)
        → ¬ Rose (K.faults out.old) (K.faults out.new) → ¬ Rose (Y.faults disk.old) (Y.faults disk.new)
        → (result ≡ Exit.Done) ⊎ (result ≡ Exit.Memory) }
{
    let Ok(()) = disk.open(path, Access::Read) else {
        return Exit::StoreFault;
    };
    match list_store(alloc, disk, out) {
        Ok(_) => Exit::Done,
        Err(ListFault::Disk) => Exit::StoreFault,
        Err(ListFault::WriteFault) => Exit::WriteFault,
        Err(ListFault::NoMemory) => Exit::Memory,
        Err(ListFault::NoStore) => refuse_store(alloc, StoreFlaw::Record { number: 1 }, out),
    }
}
