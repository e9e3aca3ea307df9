ghost use Rattle.std.specs.Prelude.{◌≡◌, Bool, true};
ghost use Rattle.farm_kinds.specs.declared.kinds.Kind.{Kind};
ghost use Rattle.farm_kinds.specs.declared.outcomes.Task.{Task};
ghost use Rattle.farm_board.specs.Trusts.{is_value_of};

use case_run::Cases;
use std::marker::Brand;

/// Says which results a board takes. It has no calls: only its meaning counts.
pub trait Trust {
    /// Whether the kind is admitted as the result of the task.
    ghost admits: { Self → Task → Kind → Bool };
}

/// Admits every result.
#[derive(Clone, Copy, Debug)]
pub struct Anyone;

impl Trust for Anyone {
    ghost admits = { λ trust task kind. true };
}

/// Admits the value of a task's case, and nothing for a task that has no case.
#[derive(Clone, Copy, Debug)]
pub struct Proved<C> {
    pub cases: C,
}

impl<C: Cases> Proved<C> {
    /// Trusts what the runs of these cases give.
    pub fn new(cases: C) -> Proved<C>
        ensures { result.cases ≡ cases }
    {
        Proved { cases }
    }
}

impl<C: Cases> Trust for Proved<C> {
    ghost admits = { λ trust task kind. is_value_of (C.case_at trust.cases task) kind };
}

/// Which results are admitted, as part of a type. The function that makes a board picks its meaning, by `Brand`.
pub trait Admission {
    ghost admits: { Task → Kind → Bool };
}

impl Admission for Brand {
    ghost admits = { λ task kind. true };
}
