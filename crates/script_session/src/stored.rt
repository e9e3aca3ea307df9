//! A session whose events are stored.
ghost use Rattle.std.specs.Prelude.{◌≡◌, ◌≢◌, ◌⊎◌, ◌≤◌, ℕ, false, true, IsTrue, IsErrOf};
ghost use Rattle.farm_io.specs.Streams.{Rose};
ghost use Rattle.record_store.specs.Held.{held, Rests};
ghost use Rattle.script_session.specs.Session.{IsShort};
ghost use Rattle.script_session.specs.Keeping.{StoredEndsAs, WroteOf};
ghost use Rattle.script_session.specs.Storing.{LeavesPrefix, HasRoom};
ghost use Rattle.script_session.specs.Firsts.{CameFirst};

use crate::end::StoredEnd;
use crate::keeper::{KeepFault, Keeper};
use crate::session::run_session;
use farm_core::Farm;
use farm_io::{Sink, Source};
use farm_journal::{AddFault, Journal};
use farm_kinds::{Event, Reply};
use record_store::Disk;
use std::alloc::Global;
use stored_events::is_kept;

impl<Y: Disk> Keeper<Y> for Journal {
    ghost use Rattle.script_session.specs.Storing.{IsReady, KeepsAll, Fails, DoesNotFit};

    ghost ready = { λ j d. IsReady (record { journal = j; tells = Y.tells d; time = Y.time d; opened = Y.opened d; faults = Y.faults d }) };

    ghost kept = { λ j0 d0 j d s least es. KeepsAll
        (record { journal = j0; tells = Y.tells d0; time = Y.time d0; opened = Y.opened d0; faults = Y.faults d0 })
        (record { journal = j; tells = Y.tells d; time = Y.time d; opened = Y.opened d; faults = Y.faults d }) s least es };

    ghost lost = { λ j0 d0 j d s least all. Fails
        (record { journal = j0; tells = Y.tells d0; time = Y.time d0; opened = Y.opened d0; faults = Y.faults d0 })
        (record { journal = j; tells = Y.tells d; time = Y.time d; opened = Y.opened d; faults = Y.faults d }) s least all };

    ghost full = { λ j0 d0 s all end. DoesNotFit j0.end j0.limit s all end };

    /// Stores the event, if it is to be stored.
    fn keep(&mut self, disk: &mut Y, event: &Event, reply: &Reply) -> Result<(), KeepFault> {
        if !is_kept(event, reply) {
            return Ok(());
        }
        match self.add(disk, event) {
            Ok(()) => Ok(()),
            Err(AddFault::Full { end }) => Err(KeepFault::Full { end }),
            Err(AddFault::NoMemory) => Err(KeepFault::NoMemory),
            Err(AddFault::Disk) => Err(KeepFault::Disk),
            // The journal is not spent.
            Err(AddFault::Spent) => Err(KeepFault::Disk),
        }
    }

    /// Each event is on the disk already.
    fn settle(&mut self, _disk: &mut Y) -> Result<(), KeepFault> {
        Ok(())
    }
}

/// Reads lines to the input's end, answers each, stores each event that changed the farm, and writes the replies, as
/// `run_script` does. The reply to an event is written once the event is stored.
///
/// The farm and the journal are as one opening on this disk gave them, and only this journal's calls wrote to it since.
/// `ends` says for each end which lines were answered, so how the farm stands and what was written. `stored` says what a
/// crash leaves: at any moment what the store held and the stored events of a prefix of what was read, and at the end of the
/// session those of each line to which a part of the reply was written.
pub fn run_stored<S: Source, K: Sink, Y: Disk>(
    alloc: Global,
    farm: &mut Farm,
    journal: &mut Journal,
    disk: &mut Y,
    input: &mut S,
    out: &mut K,
) -> StoredEnd
    requires fresh { journal.old.spent ≡ false }
    requires stands { IsTrue (Y.tells disk.old) → Rests (Y.time disk.old).now (held (Y.time disk.old).now.seen) journal.old.end }
    ensures ends { StoredEndsAs result
        (record { farm = farm.old; left = S.left input.old; held = K.held out.old })
        (record { farm = farm.new; left = S.left input.new; held = K.held out.new }) }
    ensures stored { IsTrue (Y.tells disk.old)
        → WroteOf (LeavesPrefix (held (Y.time disk.old).now.seen) farm.old (Y.time disk.old) (Y.time disk.new))
        (record { farm = farm.old; left = S.left input.old; held = K.held out.old })
        (record { farm = farm.new; left = S.left input.new; held = K.held out.new }) }

    // The store is full exactly where the next record would end past the limit.
    ensures room { WroteOf (HasRoom result journal.old.end journal.old.limit farm.old)
        (record { farm = farm.old; left = S.left input.old; held = K.held out.old })
        (record { farm = farm.new; left = S.left input.new; held = K.held out.new }) }

    // Where the disk did not fail, the journal may go on.
    ensures stands { IsTrue (Y.tells disk.old) → result ≢ StoredEnd.StoreFault
        → Rests (Y.time disk.new).now (held (Y.time disk.new).now.seen) journal.new.end }
    ensures spent { result ≡ StoredEnd.StoreFault → journal.new.spent ≡ true }
    ensures fresh { result ≢ StoredEnd.StoreFault → journal.new.spent ≡ false }
    ensures limit { journal.new.limit ≡ journal.old.limit }
    ensures path { Y.opened disk.new ≡ Y.opened disk.old }
    ensures tells { Y.tells disk.new ≡ Y.tells disk.old }

    // Where several things would end it, the first that happened does.
    ensures first { CameFirst result
        (record { farm = farm.old; left = S.left input.old; held = K.held out.old })
        (record { farm = farm.new; left = S.left input.new; held = K.held out.new }) }

    // Why it ended.
    ensures read_fault { result ≡ StoredEnd.ReadFault → Rose (S.faults input.old) (S.faults input.new) }
    ensures write_fault { result ≡ StoredEnd.WriteFault → Rose (K.faults out.old) (K.faults out.new) }
    ensures store_fault { result ≡ StoredEnd.StoreFault → Rose (Y.faults disk.old) (Y.faults disk.new) }
    ensures store_later { Y.faults disk.old ≤ Y.faults disk.new }
    ensures complete { IsShort (S.left input.old)
        → ¬ Rose (S.faults input.old) (S.faults input.new) → ¬ Rose (K.faults out.old) (K.faults out.new)
        → ¬ Rose (Y.faults disk.old) (Y.faults disk.new) → ((end : ℕ) → result ≢ StoredEnd.StoreFull end)
        → (result ≡ StoredEnd.Done) ⊎ (result ≡ StoredEnd.NoMemory) }
{
    run_session(alloc, farm, journal, disk, input, out)
}
