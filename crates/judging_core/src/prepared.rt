ghost use Rattle.farm_model.specs.Limits.{max_tests};
ghost use Rattle.std.specs.Prelude.{◌≡◌, ◌+◌, ◌++◌, ◌∷◌, ◌≤◌, vec_len, true, false, All, IfOk, IfNone, IfSome, OnOk, OnSome};
ghost use Rattle.farm_kinds.specs.RuleValue.{RuleValue};
ghost use Rattle.farm_model.specs.Judgings.{empty_judging};
ghost use Rattle.judging_core.specs.JudgeValue.{starts_with, left_reserved};
ghost use Rattle.judging_core.specs.JudgeShape.{judging_value, IsWellKept, IsRuledBy, AreRuledBy, reserved_of, ArePrepared};

use crate::judgings::{KeptJudging, empty_judging};
use farm_kinds::{Class, Mode, NoMemory, Rule};
use std::alloc::Global;

/// Makes judgings of these numbers of tests ahead. The first of them comes last, where it is taken.
pub fn prepared_judgings(
    alloc: Global,
    rule: Rule,
    tests: &[u32],
) -> Result<Vec<KeptJudging>, NoMemory>
    requires { All (λ n. n ≤ max_tests) tests.now }
    ensures reserved { IfOk result (λ prepared. reserved_of prepared.items ≡ tests.now) }
    ensures prepared { IfOk result (λ prepared. ArePrepared prepared.items) }
    ensures ruled { IfOk result (λ prepared. AreRuledBy rule prepared.items) }
{
    let mut prepared = Vec::new(alloc);
    let mut left = tests.len();
    while left > 0 {
        left -= 1;
        prepare(&mut prepared, rule, tests[left] as u16, alloc)?;
    }
    Ok(prepared)
}

/// Makes a judging of this many tests ahead, which is the next one then.
fn prepare(
    prepared: &mut Vec<KeptJudging>,
    rule: Rule,
    tests: u16,
    alloc: Global,
) -> Result<(), NoMemory>
    requires short { tests ≤ max_tests }
    requires prepared { ArePrepared prepared.old.items }
    requires ruled { AreRuledBy rule prepared.old.items }
    ensures reserved { OnOk result (reserved_of prepared.new.items ≡ tests ∷ reserved_of prepared.old.items) }
    ensures prepared { OnOk result (ArePrepared prepared.new.items) }
    ensures ruled { OnOk result (AreRuledBy rule prepared.new.items) }
{
    let judging = empty_judging(alloc, rule, Class::Normal, tests, Mode::Lazy, true)?;
    prepared.push(judging).map_err(|_| NoMemory)
}

/// Takes the next judging that is made ahead, for a judging of this class and mode, where it has this number
/// of tests.
pub fn take_prepared(
    prepared: &mut Vec<KeptJudging>,
    class: Class,
    tests: u16,
    mode: Mode,
    asked: bool,
) -> Option<KeptJudging>
    requires { ArePrepared prepared.old.items }
    ensures other { IfNone result (starts_with (reserved_of prepared.old.items) tests ≡ false) }
    ensures unchanged { IfNone result (prepared.new ≡ prepared.old) }
    ensures left { OnSome result (reserved_of prepared.old.items ≡ tests ∷ reserved_of prepared.new.items) }
    ensures count { OnSome result (vec_len prepared.new + 1 ≡ vec_len prepared.old) }
    ensures prepared { OnSome result (ArePrepared prepared.new.items) }
    ensures ruled { (rule : RuleValue) → AreRuledBy rule prepared.old.items → OnSome result (AreRuledBy rule prepared.new.items) }
    ensures value { IfSome result (λ kept. judging_value kept ≡ empty_judging class tests mode asked) }
    ensures short { IfSome result (λ kept. IsWellKept kept) }
    ensures ruled_itself { (rule : RuleValue) → AreRuledBy rule prepared.old.items → IfSome result (λ kept. IsRuledBy rule kept) }
{
    if !is_next(prepared, tests) {
        return None;
    }
    let mut kept = prepared.pop()?;
    kept.class = class;
    kept.mode = mode;
    kept.asked = asked;
    Some(kept)
}

/// Whether the next judging that is made ahead has this number of tests.
pub fn is_next(prepared: &[KeptJudging], tests: u16) -> bool
    requires { ArePrepared prepared.now }
    ensures { result ≡ starts_with (reserved_of prepared.now) tests }
{
    match prepared.last() {
        Some(kept) => kept.handed.len() == tests,
        None => false,
    }
}
