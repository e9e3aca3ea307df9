ghost use Rattle.std.specs.Prelude.{◌≡◌, ◌≢◌, ◌≤◌, ◌⊎◌};
ghost use Rattle.std.specs.Bool.{OnTrue, OnFalse};
ghost use Rattle.std.specs.List.{Contains};
ghost use Rattle.farm_kinds.specs.Rules.{prio_of};
ghost use Rattle.lazy_stop.specs.ExtremeKinds.{IsExtremes, Highest, Lowest, RivalIs};

use farm_kinds::{Kind, Rule};

/// The possible kinds of the greatest and of the least priority: all of a rule that decides which
/// cells matter.
#[derive(Clone, Copy, Debug)]
pub struct Extremes {
    pub greatest: Kind,
    /// Another possible kind of the greatest priority.
    pub rival: Option<Kind>,
    pub least: Kind,
}

/// The extremes of the kinds that are possible by the rule.
pub fn extremes_of(rule: &Rule) -> Extremes
    ensures { IsExtremes rule.now result }
{
    let kinds = rule.remaps();
    let greatest = highest(rule, &kinds);
    let rival = rival(rule, &kinds, greatest);
    let least = lowest(rule, &kinds);
    Extremes {
        greatest,
        rival,
        least,
    }
}

/// A kind of the greatest priority.
#[tactic(auto, using(crate::proofs::GreatestAndLeast::greatest_start, crate::proofs::GreatestAndLeast::greatest_more, crate::proofs::GreatestAndLeast::greatest_all))]
fn highest(rule: &Rule, kinds: &[Kind; 8]) -> Kind
    ensures one { Contains kinds.now result }
    ensures highest { Highest (prio_of rule.now) kinds.now result }
{
    let mut top = kinds[0];
    for kind in kinds {
        top = higher(rule, top, *kind);
    }
    top
}

/// The kind of the greater priority.
fn higher(rule: &Rule, one: Kind, other: Kind) -> Kind
    ensures either { (result ≡ one) ⊎ (result ≡ other) }
    ensures above_one { prio_of rule.now one ≤ prio_of rule.now result }
    ensures above_other { prio_of rule.now other ≤ prio_of rule.now result }
{
    if rule.prio(one) < rule.prio(other) {
        other
    } else {
        one
    }
}

/// A kind of the least priority.
#[tactic(auto, using(crate::proofs::GreatestAndLeast::least_start, crate::proofs::GreatestAndLeast::least_more, crate::proofs::GreatestAndLeast::least_all))]
fn lowest(rule: &Rule, kinds: &[Kind; 8]) -> Kind
    ensures one { Contains kinds.now result }
    ensures lowest { Lowest (prio_of rule.now) kinds.now result }
{
    let mut low = kinds[0];
    for kind in kinds {
        low = lower(rule, low, *kind);
    }
    low
}

/// The kind of the lesser priority.
fn lower(rule: &Rule, one: Kind, other: Kind) -> Kind
    ensures either { (result ≡ one) ⊎ (result ≡ other) }
    ensures below_one { prio_of rule.now result ≤ prio_of rule.now one }
    ensures below_other { prio_of rule.now result ≤ prio_of rule.now other }
{
    if rule.prio(other) < rule.prio(one) {
        other
    } else {
        one
    }
}

/// Another kind of the same priority.
fn rival(rule: &Rule, kinds: &[Kind; 8], top: Kind) -> Option<Kind>
    ensures { RivalIs (prio_of rule.now) kinds.now top result }
{
    for kind in kinds {
        if is_rival(rule, top, *kind) {
            return Some(*kind);
        }
    }
    None
}

/// Whether it is another kind of the same priority.
fn is_rival(rule: &Rule, top: Kind, kind: Kind) -> bool
    ensures yes { OnTrue result ((prio_of rule.now kind ≡ prio_of rule.now top) × (kind ≢ top)) }
    ensures no { OnFalse result (prio_of rule.now kind ≡ prio_of rule.now top → kind ≡ top) }
{
    if rule.prio(kind) != rule.prio(top) {
        return false;
    }
    kind != top
}
