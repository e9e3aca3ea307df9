ghost use Rattle.std.specs.Prelude.{◌≡◌, ◌≤◌, None, if◌then◌else◌, map};
ghost use Rattle.serde_json.specs.View.{view, members_view};
ghost use Rattle.farm_kinds.specs.Kinds.{every_kind};
ghost use Rattle.farm_kinds.specs.Rules.{prio_of, remap_of};
ghost use Rattle.farm_kinds.specs.RuleFaults.{first_high_kind};
ghost use Rattle.farm_model.specs.Rows.{same_kind};
ghost use Rattle.farm_settings.specs.Entries.{IsReading, each_entry, set_prio, set_remap, with_prio, with_remap};

use crate::faults::{SettingsErr, unknown_key};
use crate::values::{kind_at, number_at};
use farm_kinds::{Kind, Rule};
use serde_json::{Map, Value};
use std::alloc::Global;

/// The rule with the priorities that the entries of `results_prio` set.
pub(crate) fn prios_of(
    alloc: Global,
    first: Rule,
    entries: &Map<String, Value>,
) -> Result<Rule, SettingsErr>
    ensures { IsReading (each_entry set_prio first (members_view entries.now.entries)) result }
{
    let mut rule = first;
    for (name, value) in entries.iter() {
        rule = set_prio(alloc, &rule, name.as_str(), value)?;
    }
    Ok(rule)
}

/// The rule with what the entries of `results_remap` set.
pub(crate) fn remaps_of(
    alloc: Global,
    first: Rule,
    entries: &Map<String, Value>,
) -> Result<Rule, SettingsErr>
    ensures { IsReading (each_entry set_remap first (members_view entries.now.entries)) result }
{
    let mut rule = first;
    for (name, value) in entries.iter() {
        rule = set_remap(alloc, &rule, name.as_str(), value)?;
    }
    Ok(rule)
}

/// The rule with one priority more.
fn set_prio(alloc: Global, rule: &Rule, name: &str, value: &Value) -> Result<Rule, SettingsErr>
    ensures { IsReading (set_prio rule.now name.now (view value.now)) result }
{
    let Some(kind) = Kind::read(name.as_bytes()) else {
        return Err(unknown_key(alloc, name));
    };
    let prio = number_at(alloc, name, value, 0, 999)?;
    Ok(with_prio(rule, kind, prio as u16))
}

/// The rule in which one kind more counts as another.
fn set_remap(alloc: Global, rule: &Rule, name: &str, value: &Value) -> Result<Rule, SettingsErr>
    ensures { IsReading (set_remap rule.now name.now (view value.now)) result }
{
    let Some(kind) = Kind::read(name.as_bytes()) else {
        return Err(unknown_key(alloc, name));
    };
    let target = kind_at(alloc, name, value)?;
    Ok(with_remap(rule, kind, target))
}

/// The rule with another priority of this kind.
fn with_prio(rule: &Rule, kind: Kind, prio: u16) -> Rule
    requires { prio ≤ 999 }
    ensures { result ≡ with_prio rule.now kind prio }
{
    match Rule::new(prios_with(rule, kind, prio), rule.remaps()) {
        Ok(rule) => rule,
        Err(_) => Rule::standard(),
    }
}

/// The rule in which this kind counts as another one.
fn with_remap(rule: &Rule, kind: Kind, target: Kind) -> Rule
    ensures { result ≡ with_remap rule.now kind target }
{
    match Rule::new(prios_in(rule), remaps_with(rule, kind, target)) {
        Ok(rule) => rule,
        Err(_) => Rule::standard(),
    }
}

/// The priorities of the kinds in their order.
fn prios_in(rule: &Rule) -> [u16; 8]
    ensures value { result ≡ map (prio_of rule.now) every_kind }
    ensures none_high { first_high_kind result ≡ None }
{
    [
        rule.prio(Kind::Correct),
        rule.prio(Kind::WrongAnswer),
        rule.prio(Kind::RunError),
        rule.prio(Kind::TimeLimit),
        rule.prio(Kind::NoOutput),
        rule.prio(Kind::OutputLimit),
        rule.prio(Kind::MemoryLimit),
        rule.prio(Kind::JudgingError),
    ]
}

/// The priorities of the kinds in their order, where that of this kind is `prio`.
fn prios_with(rule: &Rule, kind: Kind, prio: u16) -> [u16; 8]
    requires { prio ≤ 999 }
    ensures value { result ≡ map (λ k. if same_kind k kind then prio else prio_of rule.now k) every_kind }
    ensures none_high { first_high_kind result ≡ None }
{
    [
        prio_or(rule, kind, prio, Kind::Correct),
        prio_or(rule, kind, prio, Kind::WrongAnswer),
        prio_or(rule, kind, prio, Kind::RunError),
        prio_or(rule, kind, prio, Kind::TimeLimit),
        prio_or(rule, kind, prio, Kind::NoOutput),
        prio_or(rule, kind, prio, Kind::OutputLimit),
        prio_or(rule, kind, prio, Kind::MemoryLimit),
        prio_or(rule, kind, prio, Kind::JudgingError),
    ]
}

/// The given priority where it is this kind's, or else what the rule says.
fn prio_or(rule: &Rule, kind: Kind, prio: u16, of: Kind) -> u16
    requires { prio ≤ 999 }
    ensures value { result ≡ (if same_kind of kind then prio else prio_of rule.now of) }
    ensures small { result ≤ 999 }
{
    if is_same(of, kind) {
        prio
    } else {
        rule.prio(of)
    }
}

/// What the kinds count as, in their order, where this kind counts as `target`.
fn remaps_with(rule: &Rule, kind: Kind, target: Kind) -> [Kind; 8]
    ensures { result ≡ map (λ k. if same_kind k kind then target else remap_of rule.now k) every_kind }
{
    [
        remap_or(rule, kind, target, Kind::Correct),
        remap_or(rule, kind, target, Kind::WrongAnswer),
        remap_or(rule, kind, target, Kind::RunError),
        remap_or(rule, kind, target, Kind::TimeLimit),
        remap_or(rule, kind, target, Kind::NoOutput),
        remap_or(rule, kind, target, Kind::OutputLimit),
        remap_or(rule, kind, target, Kind::MemoryLimit),
        remap_or(rule, kind, target, Kind::JudgingError),
    ]
}

/// The target where this is the kind that counts as it, or else what the rule says.
fn remap_or(rule: &Rule, kind: Kind, target: Kind, of: Kind) -> Kind
    ensures { result ≡ (if same_kind of kind then target else remap_of rule.now of) }
{
    if is_same(of, kind) {
        target
    } else {
        rule.remap(of)
    }
}

/// Whether both are the same kind.
fn is_same(a: Kind, b: Kind) -> bool
    ensures { result ≡ same_kind a b }
{
    a as usize == b as usize
}
