ghost use Rattle.std.specs.Prelude.{◌≡◌, ◌≤◌, IfOk};
ghost use Rattle.farm_model.specs.State.{standard_settings};

mod entries;

use crate::modes::copy_of;
use farm_kinds::{Mode, Modes, NoMemory, Rule};
use std::alloc::Global;
use std::marker::Model;

/// What a contest sets: how its verdicts come about, and how its farm works.
#[derive(Debug, Drop)]
pub struct Settings {
    rule: Rule,
    mode: Mode,
    lease: u64,
    verification: bool,
    ips: u32,
    modes: Modes,
    alloc: Global,
}

impl Model for Settings {
    ghost use Rattle.farm_model.specs.State.{SettingsValue};

    ghost Value = { SettingsValue };

    ghost use Rattle.farm_settings.specs.SettingsShape.{settings_value, IsSettings};

    ghost view = { settings_value };

    ghost invariant = { IsSettings };
}

impl Settings {
    /// The standard rule, lazy evaluation, leases of 60 seconds, judgings are public without being
    /// verified, 10,000,000 instructions stand for a second, and no problem is judged otherwise than the
    /// others.
    pub fn standard(alloc: Global) -> Settings
        ensures { result ≡ standard_settings }
    {
        Settings {
            rule: Rule::standard(),
            mode: Mode::Lazy,
            lease: 60,
            verification: false,
            ips: 10_000_000,
            modes: Modes::new(alloc),
            alloc,
        }
    }

    /// Equal settings.
    pub fn copy(&self) -> Result<Settings, NoMemory>
        ensures { IfOk result (λ copy. copy ≡ self.now) }
    {
        Ok(Settings {
            rule: self.rule,
            mode: self.mode,
            lease: self.lease,
            verification: self.verification,
            ips: self.ips,
            modes: copy_of(self.alloc, &self.modes)?,
            alloc: self.alloc,
        })
    }

    /// The priorities and the remapping of results.
    pub fn rule(&self) -> Rule
        ensures { result ≡ self.now.rule }
    {
        self.rule
    }

    /// When a judging is final, but for those of the problems in `modes`.
    pub fn mode(&self) -> Mode
        ensures { result ≡ self.now.mode }
    {
        self.mode
    }

    /// The problems that are judged otherwise than the others, by their names.
    pub fn modes(&self) -> &Modes
        ensures { result.now ≡ self.now.modes }
    {
        &self.modes
    }

    /// Gives the modes of the problems, without taking memory.
    pub fn into_modes(self) -> Modes
        ensures { result ≡ self.modes }
    {
        self.modes
    }

    /// How long a lease lasts, in seconds: from 1 to 1,000,000.
    pub fn lease(&self) -> u64
        ensures value { result ≡ self.now.lease }
        ensures some { 1 ≤ result }
        ensures short { result ≤ 1000000 }
    {
        self.lease
    }

    /// Whether the public sees a judging only once it is verified.
    pub fn verification(&self) -> bool
        ensures { result ≡ self.now.verification }
    {
        self.verification
    }

    /// How many instructions a second of a time limit stands for: from 1,000 to 100,000,000.
    pub fn ips(&self) -> u32
        ensures value { result ≡ self.now.ips }
        ensures slow { 1000 ≤ result }
        ensures fast { result ≤ 100000000 }
    {
        self.ips
    }
}
