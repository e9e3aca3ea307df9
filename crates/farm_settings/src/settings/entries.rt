ghost use Rattle.std.specs.Prelude.{◌≡◌, Some};
ghost use Rattle.serde_json.specs.View.{view, members_view};
ghost use Rattle.farm_settings.specs.declared.keys.Setting.TheVariants.{InstructionsPerSecond, LazyEvalResults, Lease, ProblemModes, ResultsPrio, ResultsRemap, VerificationRequired};
ghost use Rattle.farm_settings.specs.Entries.{IsSet, each_entry, set_entry, set_setting};

use super::Settings;
use crate::faults::{SettingsErr, unknown_key};
use crate::keys::Setting;
use crate::modes::modes_of;
use crate::rules::{prios_of, remaps_of};
use crate::values::{entries_at, flag_at, mode_of, number_at};
use serde_json::{Map, Value};
use std::alloc::Global;

impl Settings {
    /// Sets what the entries of `farm.json` say, up to the first fault.
    pub(crate) fn set_each(
        &mut self,
        alloc: Global,
        entries: &Map<String, Value>,
    ) -> Result<(), SettingsErr>
        ensures { IsSet (each_entry set_entry self.old (members_view entries.now.entries)) self.new result }
    {
        for (key, value) in entries.iter() {
            self.set(alloc, key.as_str(), value)?;
        }
        Ok(())
    }

    /// Sets what an entry of `farm.json` says. At an `Err` the settings are as they were.
    fn set(&mut self, alloc: Global, key: &str, value: &Value) -> Result<(), SettingsErr>
        ensures { IsSet (set_entry self.old key.now (view value.now)) self.new result }
    {
        let Some(setting) = Setting::read(key.as_bytes()) else {
            return Err(unknown_key(alloc, key));
        };
        match setting {
            Setting::InstructionsPerSecond => self.set_ips(alloc, key, value),
            Setting::LazyEvalResults => self.set_mode(alloc, key, value),
            Setting::Lease => self.set_lease(alloc, key, value),
            Setting::ProblemModes => self.set_modes(alloc, key, value),
            Setting::ResultsPrio => self.set_prios(alloc, key, value),
            Setting::ResultsRemap => self.set_remaps(alloc, key, value),
            Setting::VerificationRequired => self.set_verification(alloc, key, value),
        }
    }

    /// Sets what `instructions_per_second` says.
    fn set_ips(&mut self, alloc: Global, key: &str, value: &Value) -> Result<(), SettingsErr>
        ensures { IsSet (set_setting self.old (Some InstructionsPerSecond) key.now (view value.now)) self.new result }
    {
        self.ips = number_at(alloc, key, value, 1000, 100_000_000)? as u32;
        Ok(())
    }

    /// Sets what `lazy_eval_results` says.
    fn set_mode(&mut self, alloc: Global, key: &str, value: &Value) -> Result<(), SettingsErr>
        ensures { IsSet (set_setting self.old (Some LazyEvalResults) key.now (view value.now)) self.new result }
    {
        self.mode = mode_of(flag_at(alloc, key, value)?);
        Ok(())
    }

    /// Sets what `lease` says.
    fn set_lease(&mut self, alloc: Global, key: &str, value: &Value) -> Result<(), SettingsErr>
        ensures { IsSet (set_setting self.old (Some Lease) key.now (view value.now)) self.new result }
    {
        self.lease = number_at(alloc, key, value, 1, 1_000_000)?;
        Ok(())
    }

    /// Sets what the entries of `problem_modes` say.
    fn set_modes(&mut self, alloc: Global, key: &str, value: &Value) -> Result<(), SettingsErr>
        ensures { IsSet (set_setting self.old (Some ProblemModes) key.now (view value.now)) self.new result }
    {
        self.modes = modes_of(alloc, entries_at(alloc, key, value)?)?;
        Ok(())
    }

    /// Sets what the entries of `results_prio` say.
    fn set_prios(&mut self, alloc: Global, key: &str, value: &Value) -> Result<(), SettingsErr>
        ensures { IsSet (set_setting self.old (Some ResultsPrio) key.now (view value.now)) self.new result }
    {
        self.rule = prios_of(alloc, self.rule, entries_at(alloc, key, value)?)?;
        Ok(())
    }

    /// Sets what the entries of `results_remap` say.
    fn set_remaps(&mut self, alloc: Global, key: &str, value: &Value) -> Result<(), SettingsErr>
        ensures { IsSet (set_setting self.old (Some ResultsRemap) key.now (view value.now)) self.new result }
    {
        self.rule = remaps_of(alloc, self.rule, entries_at(alloc, key, value)?)?;
        Ok(())
    }

    /// Sets what `verification_required` says.
    fn set_verification(
        &mut self,
        alloc: Global,
        key: &str,
        value: &Value,
    ) -> Result<(), SettingsErr>
        ensures { IsSet (set_setting self.old (Some VerificationRequired) key.now (view value.now)) self.new result }
    {
        self.verification = flag_at(alloc, key, value)?;
        Ok(())
    }
}
