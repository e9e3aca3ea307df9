ghost use Rattle.std.specs.Prelude.{◌≡◌, ◌≢◌, ◌⊎◌, ◌≤◌, ℕ, List, Option, None, Ok, IsTrue, option_map};
ghost use Rattle.farm_io.specs.Streams.{Rose};
ghost use Rattle.farm_tree.specs.declared.reads.TreeFile.{TreeFile};
ghost use Rattle.farm_model.specs.State.{State, SettingsValue, start};
ghost use Rattle.stored_events.specs.Opening.{opened_of};
ghost use Rattle.script_session.specs.Session.{IsShort};
ghost use Rattle.script_commands.specs.Stored.{IsConfigured, StoreEnds, StoredEnds, StoredIsDone, exit_of};

use crate::config::{ConfigEnd, read_config, refuse};
use crate::flaw::refuse_store;
use exit_status::{Exit, StoreFlaw};
use farm_core::Farm;
use farm_io::{Sink, Source};
use farm_journal::{Journal, STORE_LIMIT};
use farm_settings::Settings;
use farm_tree::Tree;
use people::Person;
use record_store::{Access, Disk};
use script_session::{StoredEnd, run_stored};
use sha2::{Digest, Sha256};
use std::alloc::Global;
use std::mem;
use stored_events::OpenFault;

/// `farm script` with a store: opens the store at the path, with the settings of a file or with the standard ones, plays its
/// events, and answers the lines of the input. Each event that changes the farm is stored before its reply is written.
///
/// Where the file gives no settings, the store is not opened, and the person is told why.
#[tactic(auto, unfolding(crate::specs::Stored::StoredIsDone))]
pub fn script_stored<T: Tree, S: Source, K: Sink, Y: Disk, P: Person>(
    alloc: Global,
    config: Option<&str>,
    path: &str,
    tree: &mut T,
    input: &mut S,
    out: &mut K,
    disk: &mut Y,
    person: &mut P,
) -> Exit
    ensures command { result ≢ Exit.Usage }
    ensures door_fault { result ≢ Exit.DoorFault }
    ensures ends { StoredEnds (T.files tree.old) (option_map (λ file. file.now) config.entry) path.now
        (record { tells = Y.tells disk.old; old = record { time = Y.time disk.old; opened = Y.opened disk.old; faults = Y.faults disk.old }; new = record { time = Y.time disk.new; opened = Y.opened disk.new; faults = Y.faults disk.new } })
        (record { left = S.left input.old; held = K.held out.old }) (record { left = S.left input.new; held = K.held out.new })
        (input.new ≡ input.old) (out.new ≡ out.old) result }
    ensures tree { option_map (λ file. file.now) config.entry ≡ None → tree.new ≡ tree.old }
    ensures files { T.files tree.new ≡ T.files tree.old }
    ensures read_fault { result ≡ Exit.ReadFault → Rose (S.faults input.old) (S.faults input.new) }
    ensures write_fault { result ≡ Exit.WriteFault → Rose (K.faults out.old) (K.faults out.new) }
    ensures tree_fault { result ≡ Exit.TreeFault → Rose (T.faults tree.old) (T.faults tree.new) }
    ensures first { result ≢ Exit.TreeFault → T.faults tree.new ≡ T.faults tree.old }
    ensures store_fault { result ≡ Exit.StoreFault → Rose (Y.faults disk.old) (Y.faults disk.new) }
    ensures complete { StoredIsDone (T.files tree.old) (option_map (λ file. file.now) config.entry)
        (record { tells = Y.tells disk.old; old = record { time = Y.time disk.old; opened = Y.opened disk.old; faults = Y.faults disk.old }; new = record { time = Y.time disk.new; opened = Y.opened disk.new; faults = Y.faults disk.new } })
        (S.left input.old)
        (¬ Rose (T.faults tree.old) (T.faults tree.new) × ¬ Rose (S.faults input.old) (S.faults input.new) × ¬ Rose (K.faults out.old) (K.faults out.new)
        × ¬ Rose (Y.faults disk.old) (Y.faults disk.new)) result }
{
    let Some(file) = config else {
        let digest = Sha256::digest(b"");
        return play_anew(
            alloc,
            Settings::standard(alloc),
            &digest,
            path,
            input,
            out,
            disk,
        );
    };
    match read_config(alloc, tree, file) {
        Ok(read) => {
            let digest = read.digest;
            play_anew(alloc, read.settings, &digest, path, input, out, disk)
        }
        Err(ConfigEnd::Bad(bad)) => refuse(alloc, file, &bad, out, person),
        Err(ConfigEnd::TreeFault) => Exit::TreeFault,
        Err(ConfigEnd::NoMemory) => Exit::Memory,
    }
}

/// Plays a store of the configuration with this digest into an empty farm with these settings, and goes on with the lines of
/// the input.
fn play_anew<S: Source, K: Sink, Y: Disk>(
    alloc: Global,
    settings: Settings,
    digest: &[u8; 32],
    path: &str,
    input: &mut S,
    out: &mut K,
    disk: &mut Y,
) -> Exit
    ensures command { result ≢ Exit.Usage }
    ensures door_fault { result ≢ Exit.DoorFault }
    ensures tree_fault { result ≢ Exit.TreeFault }
    ensures ends { (files : Option (List TreeFile)) (config : Option (List ℕ)) → IsConfigured files config settings digest.now
        → StoreEnds files config path.now
        (record { tells = Y.tells disk.old; old = record { time = Y.time disk.old; opened = Y.opened disk.old; faults = Y.faults disk.old }; new = record { time = Y.time disk.new; opened = Y.opened disk.new; faults = Y.faults disk.new } })
        (record { left = S.left input.old; held = K.held out.old }) (record { left = S.left input.new; held = K.held out.new })
        (input.new ≡ input.old) (out.new ≡ out.old) result }
    ensures read_fault { result ≡ Exit.ReadFault → Rose (S.faults input.old) (S.faults input.new) }
    ensures write_fault { result ≡ Exit.WriteFault → Rose (K.faults out.old) (K.faults out.new) }
    ensures store_fault { result ≡ Exit.StoreFault → Rose (Y.faults disk.old) (Y.faults disk.new) }
    ensures complete { (first : State) → IsTrue (Y.tells disk.old) → opened_of digest.now (start settings) (Y.time disk.old).now.seen ≡ Ok first
        → IsShort (S.left input.old) → ¬ Rose (S.faults input.old) (S.faults input.new) → ¬ Rose (K.faults out.old) (K.faults out.new)
        → ¬ Rose (Y.faults disk.old) (Y.faults disk.new) → ((mark : ℕ) → result ≢ Exit.StoreFull mark)
        → (result ≡ Exit.Done) ⊎ (result ≡ Exit.Memory) }
{
    let mut farm = Farm::new(alloc, settings);
    let exit = play(alloc, &mut farm, digest, path, input, out, disk);
    // The process ends behind this, and gives everything back at once.
    mem::forget(farm);
    exit
}

/// Opens the store at the path, plays it into this farm, and answers the lines of the input.
fn play<S: Source, K: Sink, Y: Disk>(
    alloc: Global,
    farm: &mut Farm,
    digest: &[u8; 32],
    path: &str,
    input: &mut S,
    out: &mut K,
    disk: &mut Y,
) -> Exit
    ensures command { result ≢ Exit.Usage }
    ensures door_fault { result ≢ Exit.DoorFault }
    ensures tree_fault { result ≢ Exit.TreeFault }
    ensures ends { (files : Option (List TreeFile)) (config : Option (List ℕ)) (settings : SettingsValue)
        → farm.old ≡ start settings → IsConfigured files config settings digest.now
        → StoreEnds files config path.now
        (record { tells = Y.tells disk.old; old = record { time = Y.time disk.old; opened = Y.opened disk.old; faults = Y.faults disk.old }; new = record { time = Y.time disk.new; opened = Y.opened disk.new; faults = Y.faults disk.new } })
        (record { left = S.left input.old; held = K.held out.old }) (record { left = S.left input.new; held = K.held out.new })
        (input.new ≡ input.old) (out.new ≡ out.old) result }
    ensures read_fault { result ≡ Exit.ReadFault → Rose (S.faults input.old) (S.faults input.new) }
    ensures write_fault { result ≡ Exit.WriteFault → Rose (K.faults out.old) (K.faults out.new) }
    ensures store_fault { result ≡ Exit.StoreFault → Rose (Y.faults disk.old) (Y.faults disk.new) }
    ensures complete { (first : State) → IsTrue (Y.tells disk.old) → opened_of digest.now farm.old (Y.time disk.old).now.seen ≡ Ok first
        → IsShort (S.left input.old) → ¬ Rose (S.faults input.old) (S.faults input.new) → ¬ Rose (K.faults out.old) (K.faults out.new)
        → ¬ Rose (Y.faults disk.old) (Y.faults disk.new) → ((mark : ℕ) → result ≢ Exit.StoreFull mark)
        → (result ≡ Exit.Done) ⊎ (result ≡ Exit.Memory) }
{
    let Ok(()) = disk.open(path, Access::Change) else {
        return Exit::StoreFault;
    };
    match Journal::open(alloc, disk, digest, farm, STORE_LIMIT) {
        Ok(mut journal) => exit_of(run_stored(alloc, farm, &mut journal, disk, input, out)),
        Err(OpenFault::Disk) => Exit::StoreFault,
        Err(OpenFault::NoMemory) => Exit::Memory,
        Err(OpenFault::OtherConfig { kept }) => {
            refuse_store(alloc, StoreFlaw::OtherConfig { kept }, out)
        }
        Err(OpenFault::BadRecord { number }) => {
            refuse_store(alloc, StoreFlaw::Record { number }, out)
        }
    }
}

/// How the program ends where a session that stores its events ends so.
fn exit_of(end: StoredEnd) -> Exit
    ensures { result ≡ exit_of end }
{
    match end {
        StoredEnd::Done => Exit::Done,
        StoredEnd::ReadFault => Exit::ReadFault,
        StoredEnd::WriteFault => Exit::WriteFault,
        StoredEnd::InputLimit => Exit::InputLimit,
        StoredEnd::StoreFault => Exit::StoreFault,
        StoredEnd::StoreFull { end } => Exit::StoreFull { end },
        StoredEnd::NoMemory => Exit::Memory,
    }
}
