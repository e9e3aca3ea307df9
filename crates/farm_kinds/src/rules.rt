ghost use Rattle.std.specs.Prelude.{◌≡◌, slice_index, ◌≤◌, ◌<◌, IfOk};
ghost use Rattle.std.specs.Option.{option_map};
ghost use Rattle.std.specs.Result.{result_err};
ghost use Rattle.farm_kinds.specs.declared.kinds.Kind.{Kind};
ghost use Rattle.farm_kinds.specs.Rules.{place_of, possible_kinds, prio_of, remap_of, verdict_of, standard};
ghost use Rattle.farm_kinds.specs.RuleFaults.{first_high_kind};
ghost use Rattle.farm_kinds.specs.Ranks.{better_of};

use crate::kinds::Kind;
use std::marker::Model;

/// The priority of each kind, and the kind that it counts as (DOMjudge manual, `results_prio` and
/// `results_remap`).
///
/// Priorities are from 0 to 999. A kind is replaced once, and the replacement is not replaced again.
#[derive(Clone, Copy, Debug)]
pub struct Rule {
    prio: [u16; 8],
    remap: [Kind; 8],
}

impl Model for Rule {
    ghost use Rattle.std.specs.Prelude.{◌≡◌, None};
    ghost use Rattle.farm_kinds.specs.RuleFaults.{first_high_kind};
    ghost use Rattle.farm_kinds.specs.RuleValue.{RuleValue};

    ghost Value = { RuleValue };

    ghost view = { λ r. record { prios = r.prio; remaps = r.remap } };

    ghost invariant = { λ r. first_high_kind r.prio ≡ None };

    ghost inverse = { λ v. record { prio = v.prios; remap = v.remaps } };
}

/// Why there is no rule of these priorities.
#[derive(Clone, Copy, Debug, PartialEq, Eq)]
pub enum RuleFault {
    /// The priority of `kind` is `value`, over 999.
    TooHigh { kind: Kind, value: u16 },
}

/// A kind's place among the eight.
fn place(kind: Kind) -> usize
    ensures place { result ≡ place_of kind }
    ensures small { result < 8 }
{
    kind as usize
}

/// The first kind whose priority is over 999.
fn first_high_kind(prio: &[u16; 8]) -> Option<Kind>
    ensures { result ≡ first_high_kind prio.now }
{
    Kind::ALL
        .iter()
        .copied()
        .find(|kind| prio[place(*kind)] > 999)
}

impl Rule {
    /// The rule of these priorities and replacements, in the order of the kinds.
    ///
    /// `TooHigh` names the first kind whose priority is over 999.
    pub fn new(prio: [u16; 8], remap: [Kind; 8]) -> Result<Rule, RuleFault>
        ensures ok { IfOk result (λ rule. rule ≡ record { prios = prio; remaps = remap }) }
        ensures fault { result_err result ≡ option_map (λ kind. RuleFault.TooHigh kind (slice_index prio (place_of kind))) (first_high_kind prio) }
    {
        match first_high_kind(&prio) {
            Some(kind) => Err(RuleFault::TooHigh {
                kind,
                value: prio[place(kind)],
            }),
            None => Ok(Rule { prio, remap }),
        }
    }

    /// The standard rule: `correct` has priority 1, `no-output` 10, `wrong-answer` 30, each other kind
    /// 99, and each kind counts as itself.
    pub fn standard() -> Rule
        ensures { result ≡ standard }
    {
        Rule {
            prio: [1, 30, 99, 99, 10, 99, 99, 99],
            remap: Kind::ALL,
        }
    }

    /// The priority of a kind, from 0 to 999.
    pub fn prio(&self, kind: Kind) -> u16
        ensures value { result ≡ prio_of self.now kind }
        ensures small { result ≤ 999 }
    {
        self.prio[kind as usize]
    }

    /// The kind that a kind counts as.
    pub fn remap(&self, kind: Kind) -> Kind
        ensures { result ≡ remap_of self.now kind }
    {
        self.remap[kind as usize]
    }

    /// What each of the eight kinds counts as, in their order: the kinds that a result can count as.
    pub fn remaps(&self) -> [Kind; 8]
        ensures { result ≡ possible_kinds self.now }
    {
        [
            self.remap(Kind::Correct),
            self.remap(Kind::WrongAnswer),
            self.remap(Kind::RunError),
            self.remap(Kind::TimeLimit),
            self.remap(Kind::NoOutput),
            self.remap(Kind::OutputLimit),
            self.remap(Kind::MemoryLimit),
            self.remap(Kind::JudgingError),
        ]
    }
}

/// The verdict of the kinds: the kind at the least place whose priority is the greatest. None where
/// there are no kinds.
#[tactic(auto, using(crate::proofs::Greatest::first_greatest_more))]
pub fn verdict(rule: &Rule, kinds: &[Kind]) -> Option<Kind>
    ensures { result ≡ verdict_of rule.now kinds.now }
{
    let mut best: Option<Kind> = None;
    for kind in kinds {
        best = Some(better(rule, best, *kind));
    }
    best
}

/// The best so far, or the next kind where its priority is greater.
fn better(rule: &Rule, best: Option<Kind>, next: Kind) -> Kind
    ensures { result ≡ better_of (prio_of rule.now) best next }
{
    match best {
        Some(kind) if rule.prio(kind) >= rule.prio(next) => kind,
        _ => next,
    }
}
