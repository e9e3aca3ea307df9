ghost use Rattle.std.specs.Prelude.{◌≡◌, Some};
ghost use Rattle.serde_json.specs.View.{view, members_view};
ghost use Rattle.farm_model.specs.State.{standard_settings};
ghost use Rattle.farm_settings.specs.Entries.{IsReading, each_entry, set_entry};
ghost use Rattle.farm_settings.specs.FarmJson.{settings_of_text, settings_of_value};

use crate::faults::{SettingsErr, SettingsFault};
use crate::settings::Settings;
use serde_json::{Map, Value};
use std::alloc::Global;

/// The settings that the text of `farm.json` says. Where it says nothing of one, that has its default.
///
/// Keys are looked at in the order of their bytes, within the object of a key too, and the first fault is
/// answered. Of a key that stands more than once the last value counts.
pub fn read_settings(alloc: Global, text: &[u8]) -> Result<Settings, SettingsErr>
    ensures { IsReading (settings_of_text text.now) result }
{
    match Value::from_slice(alloc, text) {
        Ok(value) => settings_of(alloc, &value),
        Err(fault) => {
            if fault.is_memory() {
                return Err(SettingsErr::NoMemory);
            }
            Err(SettingsErr::Bad(SettingsFault::NotJson))
        }
    }
}

/// The settings that a value says.
fn settings_of(alloc: Global, value: &Value) -> Result<Settings, SettingsErr>
    ensures { IsReading (settings_of_value (Some (view value.now))) result }
{
    match value.as_object() {
        Some(entries) => settings_by(alloc, entries),
        None => Err(SettingsErr::Bad(SettingsFault::NotJson)),
    }
}

/// The settings that the entries say.
fn settings_by(alloc: Global, entries: &Map<String, Value>) -> Result<Settings, SettingsErr>
    ensures { IsReading (each_entry set_entry standard_settings (members_view entries.now.entries)) result }
{
    let mut settings = Settings::standard(alloc);
    settings.set_each(alloc, entries)?;
    Ok(settings)
}
