//! What a contest sets, and the text of `farm.json` that says it.
//!
//! Where things stand: `keys.rt` the keys, `values.rt` what their values say, `rules.rt` the priorities and what
//! kinds count as, `modes.rt` the modes of problems, `settings/entries.rt` what each entry sets, one after the
//! other, and `reading.rt` the whole, which gives what `settings.rt` has or a fault of `faults.rt`.
//!
//! To add a key write it in `specs/Keys.antt` and `specs/Entries.antt`, and then in the files above.
#![tactic(auto)]

mod faults;
mod keys;
mod modes;
mod reading;
mod rules;
mod settings;
mod values;
mod worked;

pub use faults::{SettingsErr, SettingsFault};
pub use keys::Setting;
pub use reading::read_settings;
pub use settings::Settings;
pub use worked::{worked_faults, worked_texts, worked_values};
