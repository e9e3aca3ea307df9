ghost use Rattle.std.specs.Prelude.{◌≡◌, ◌≢◌};
ghost use Rattle.farm_settings.specs.declared.faults.SettingsErr.TheVariants.{Bad, NoMemory};
ghost use Rattle.farm_settings.specs.declared.faults.SettingsFault.TheVariants.{UnknownKey, BadValue};

use farm_kinds::Text;
use std::alloc::Global;

/// Why a text sets nothing.
#[derive(Debug, Drop)]
pub enum SettingsFault {
    /// The text is no JSON, is nested too deep, or is no object.
    NotJson,
    /// No setting has this key, or within the object of a setting no kind has this name.
    UnknownKey { key: Text },
    /// The value at `key` is none that the setting takes.
    BadValue { key: Text },
}

/// Why no settings were read.
#[derive(Debug, Drop)]
pub enum SettingsErr {
    /// The text has this fault.
    Bad(SettingsFault),
    /// No memory was left.
    NoMemory,
}

/// That no setting has this key.
pub(crate) fn unknown_key(alloc: Global, key: &str) -> SettingsErr
    ensures { result ≢ NoMemory → result ≡ Bad (UnknownKey key.now) }
{
    match key.as_bytes().to_vec(alloc) {
        Ok(bytes) => SettingsErr::Bad(SettingsFault::UnknownKey {
            key: Text::from_vec(bytes),
        }),
        Err(_) => SettingsErr::NoMemory,
    }
}

/// That the value at this key is a bad one.
pub(crate) fn bad_value(alloc: Global, key: &str) -> SettingsErr
    ensures { result ≢ NoMemory → result ≡ Bad (BadValue key.now) }
{
    match key.as_bytes().to_vec(alloc) {
        Ok(bytes) => SettingsErr::Bad(SettingsFault::BadValue {
            key: Text::from_vec(bytes),
        }),
        Err(_) => SettingsErr::NoMemory,
    }
}
