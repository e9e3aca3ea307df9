ghost use Rattle.std.specs.Prelude.{◌≡◌, ◌≢◌, ◌≤◌, ◌++◌, ◌∷◌, [], List, Option, Ok, Err, IfOk, OnOk};
ghost use Rattle.farm_io.specs.Streams.{Rose};
ghost use Rattle.farm_tree.specs.declared.reads.TreeFile.{TreeFile};
ghost use Rattle.script_commands.specs.Config.{ConfigIs, DigestIs, bad_config_text, bad_contest_line};
ghost use Rattle.script_commands.specs.Scripted.{NoSettingsEnds};

use contest_folder::{ContestFault, push_contest_fault, push_settings_fault};
use contest_notes::settings_reason;
use exit_status::Exit;
use farm_io::{PutEnd, Sink};
use farm_kinds::NoMemory;
use farm_settings::{Settings, SettingsErr, SettingsFault, read_settings};
use farm_tree::{Tree, TreeErr};
use package_folder::copy;
use people::Person;
use sha2::{Digest, Sha256};
use std::alloc::{AllocError, Global};

/// The settings of a file, and the SHA-256 digest of its bytes.
#[derive(Drop)]
pub struct Configured {
    pub settings: Settings,
    pub digest: [u8; 32],
}

/// Why the settings' file gives no settings.
#[derive(Debug, Drop)]
pub enum BadConfig {
    /// No file has the path.
    NoConfig,
    /// The file has so many bytes, which are more than 16 MiB.
    TooLarge { len: u64 },
    /// Its text has this fault.
    Settings(SettingsFault),
}

/// How the reading of the settings' file ends without settings.
#[derive(Debug, Drop)]
pub enum ConfigEnd {
    /// The file gives none.
    Bad(BadConfig),
    /// The tree failed.
    TreeFault,
    /// No memory was left.
    NoMemory,
}

/// The settings that the file at the path gives, and the digest of its bytes.
pub fn read_config<T: Tree>(
    alloc: Global,
    tree: &mut T,
    path: &str,
) -> Result<Configured, ConfigEnd>
    ensures settings { IfOk result (λ read. ConfigIs (T.files tree.old) path.now (Ok read.settings)) }
    ensures digest { IfOk result (λ read. DigestIs (T.files tree.old) path.now read.digest) }
    ensures bad { (fault : BadConfig) → result ≡ Err (ConfigEnd.Bad fault) → ConfigIs (T.files tree.old) path.now (Err fault) }
    ensures cause { result ≡ Err ConfigEnd.TreeFault → Rose (T.faults tree.old) (T.faults tree.new) }
    ensures first { result ≢ Err ConfigEnd.TreeFault → T.faults tree.new ≡ T.faults tree.old }
    ensures later { T.faults tree.old ≤ T.faults tree.new }
    ensures files { T.files tree.new ≡ T.files tree.old }
{
    match tree.read(path) {
        Ok(text) => match read_settings(alloc, text.as_slice()) {
            Ok(settings) => {
                let digest = Sha256::digest(text.as_slice());
                Ok(Configured { settings, digest })
            }
            Err(SettingsErr::Bad(fault)) => Err(ConfigEnd::Bad(BadConfig::Settings(fault))),
            Err(SettingsErr::NoMemory) => Err(ConfigEnd::NoMemory),
        },
        Err(TreeErr::Absent) => Err(ConfigEnd::Bad(BadConfig::NoConfig)),
        Err(TreeErr::TooLarge { len }) => Err(ConfigEnd::Bad(BadConfig::TooLarge { len })),
        Err(TreeErr::Failed) => Err(ConfigEnd::TreeFault),
        Err(TreeErr::NoMemory) => Err(ConfigEnd::NoMemory),
    }
}

/// Says why the file at the path gives no settings, and writes the line of it.
pub(crate) fn refuse<K: Sink, P: Person>(
    alloc: Global,
    path: &str,
    bad: &BadConfig,
    out: &mut K,
    person: &mut P,
) -> Exit
    ensures command { result ≢ Exit.Usage }
    ensures door_fault { result ≢ Exit.DoorFault }
    ensures tree_fault { result ≢ Exit.TreeFault }
    ensures read_fault { result ≢ Exit.ReadFault }
    ensures ends { (files : Option (List TreeFile)) → ConfigIs files path.now (Err bad.now)
        → NoSettingsEnds files path.now (K.held out.old) (K.held out.new) (out.new ≡ out.old) result }
    ensures write_fault { result ≡ Exit.WriteFault → Rose (K.faults out.old) (K.faults out.new) }
{
    tell(alloc, path, bad, person);
    match bad_contest_line(alloc, path, bad) {
        Ok(line) => match out.put(line.as_slice()) {
            PutEnd::Done => Exit::BadContest,
            PutEnd::Failed => Exit::WriteFault,
        },
        Err(_) => Exit::Memory,
    }
}

/// Says why the file at the path gives no settings. Where no memory is left to say it, it is left out.
fn tell<P: Person>(alloc: Global, path: &str, bad: &BadConfig, person: &mut P) {
    if let Ok(reason) = reason_of(alloc, path, bad) {
        person.refuses(reason.as_str());
    }
}

/// Why the file at the path gives no settings, and what comes of it.
fn reason_of(alloc: Global, path: &str, bad: &BadConfig) -> Result<String, AllocError> {
    let reason = match bad {
        BadConfig::NoConfig => String::from_str(alloc, "there is no such file")?,
        BadConfig::TooLarge { len } => format!(in alloc;
            "it has {len} bytes, and at most 16777216 are read"
        )?,
        BadConfig::Settings(fault) => settings_reason(alloc, fault)?,
    };
    format!(in alloc; "{path} gives no settings: {reason}; no line was read")
}

/// The line that says why the file at the path gives no settings.
pub fn bad_contest_line(alloc: Global, path: &str, bad: &BadConfig) -> Result<Vec<u8>, NoMemory>
    ensures { IfOk result (λ line. line.items ≡ bad_contest_line path.now bad.now) }
{
    let mut line = b"bad contest: ".to_vec(alloc)?;
    push_fault(alloc, &mut line, path, bad)?;
    line.push(b'\n').map_err(|_| NoMemory)?;
    Ok(line)
}

/// Puts what is printed of the fault behind what is there.
fn push_fault(
    alloc: Global,
    text: &mut Vec<u8>,
    path: &str,
    bad: &BadConfig,
) -> Result<(), NoMemory>
    ensures { OnOk result (text.new.items ≡ text.old.items ++ bad_config_text path.now bad.now) }
{
    match bad {
        BadConfig::NoConfig => text.extend_from_slice(b"no config").map_err(|_| NoMemory),
        BadConfig::TooLarge { len } => {
            let name = copy(alloc, path.as_bytes())?;
            push_contest_fault(text, &ContestFault::TooLarge { name, len: *len })
        }
        BadConfig::Settings(fault) => push_settings_fault(text, fault),
    }
}
