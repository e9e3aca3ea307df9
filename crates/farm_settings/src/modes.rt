ghost use Rattle.std.specs.Prelude.{◌≡◌, [], IfOk};
ghost use Rattle.serde_json.specs.View.{view, members_view};
ghost use Rattle.farm_settings.specs.Entries.{IsReading, IsSet, each_entry, mode_entry, set_mode};

use crate::faults::{SettingsErr, unknown_key};
use crate::values::problem_mode_at;
use farm_kinds::{Modes, Name, NamedMode, NoMemory};
use serde_json::{Map, Value};
use std::alloc::Global;

/// The modes that the entries of `problem_modes` set.
pub(crate) fn modes_of(alloc: Global, entries: &Map<String, Value>) -> Result<Modes, SettingsErr>
    ensures { IsReading (each_entry set_mode [] (members_view entries.now.entries)) result }
{
    let mut modes = Modes::new(alloc);
    add_modes(alloc, &mut modes, entries)?;
    Ok(modes)
}

/// Adds the modes that the entries set, up to the first fault.
fn add_modes(
    alloc: Global,
    modes: &mut Modes,
    entries: &Map<String, Value>,
) -> Result<(), SettingsErr>
    ensures { IsSet (each_entry set_mode modes.old (members_view entries.now.entries)) modes.new result }
{
    for (name, value) in entries.iter() {
        let mode = named_mode(alloc, name.as_str(), value)?;
        if modes.push(mode).is_err() {
            return Err(SettingsErr::NoMemory);
        }
    }
    Ok(())
}

/// The mode of the problem of a name.
fn named_mode(alloc: Global, name: &str, value: &Value) -> Result<NamedMode, SettingsErr>
    ensures { IsReading (mode_entry name.now (view value.now)) result }
{
    let Some(problem) = Name::read(name.as_bytes()) else {
        return Err(unknown_key(alloc, name));
    };
    let mode = problem_mode_at(alloc, name, value)?;
    Ok(NamedMode {
        name: problem,
        mode,
    })
}

/// Equal modes.
pub(crate) fn copy_of(alloc: Global, modes: &Modes) -> Result<Modes, NoMemory>
    ensures { IfOk result (λ copy. copy ≡ modes.now) }
{
    Ok(Modes::from_vec(modes.as_slice().to_vec(alloc)?))
}
