ghost use Rattle.std.specs.Prelude.{◌≡◌, ◌≢◌, ℕ, ◌+◌, ◌*◌, ◌/◌, ◌^◌, ◌<◌, ◌≤◌, ◌⊎◌, [], length, IfSome, IfNone, OnOk};
ghost use Rattle.farm_kinds.specs.declared.outcomes.Class.{Class};
ghost use Rattle.task_tree.specs.Bits.{bit, IsInserted, IsRemoved, IsLeast, IsEmpty};
ghost use Rattle.task_tree.specs.Tree.{of_class, HasRoom, IsReserved};

use crate::numbers::NumberSet;
use crate::steps::Steps;
use farm_kinds::Class;
use std::alloc::{AllocError, Global};
use std::sync::ledger::Ledger;

/// For each class the places of the judgings of which a task is shown.
#[derive(Drop)]
pub struct Classes {
    /// The judgings that are judged before the others.
    pub high: NumberSet,
    /// The judgings as they are where nothing else is said.
    pub normal: NumberSet,
    /// The judgings that are judged after the others.
    pub low: NumberSet,
}

impl Classes {
    /// Empty sets, with no room.
    pub fn new(alloc: Global) -> Classes
        ensures { (c : Class) → of_class result c ≡ record { numbers = []; top_words = 0 } }
    {
        Classes {
            high: NumberSet::new(alloc),
            normal: NumberSet::new(alloc),
            low: NumberSet::new(alloc),
        }
    }

    /// Makes room for the judging at this place in each class. At an error each class has the judgings that
    /// it had.
    pub fn reserve(&mut self, place: usize) -> Result<(), AllocError>
        requires next { HasRoom self.old place }
        requires small { place < 2 ^ 19 }
        ensures reserved { IsReserved self.old self.new place }
        ensures within { OnOk result (HasRoom self.new (place + 1)) }
    {
        self.high.reserve(place)?;
        self.normal.reserve(place)?;
        self.low.reserve(place)
    }

    /// Puts the judging at this place in its class.
    pub fn insert(&mut self, class: Class, place: usize)
        requires { place / 64 < length (of_class self.old class).numbers }
        ensures inserted { IsInserted (of_class self.old class).numbers (of_class self.new class).numbers place }
        ensures top_words { (of_class self.new class).top_words ≡ (of_class self.old class).top_words }
        ensures others { (c : Class) → c ≢ class → of_class self.new c ≡ of_class self.old c }
    {
        match class {
            Class::High => self.high.insert(place),
            Class::Normal => self.normal.insert(place),
            Class::Low => self.low.insert(place),
        }
    }

    /// Takes the judging at this place out of its class.
    pub fn remove(&mut self, class: Class, place: usize)
        requires { place / 64 < length (of_class self.old class).numbers }
        ensures removed { IsRemoved (of_class self.old class).numbers (of_class self.new class).numbers place }
        ensures top_words { (of_class self.new class).top_words ≡ (of_class self.old class).top_words }
        ensures others { (c : Class) → c ≢ class → of_class self.new c ≡ of_class self.old c }
    {
        match class {
            Class::High => self.high.remove(place),
            Class::Normal => self.normal.remove(place),
            Class::Low => self.low.remove(place),
        }
    }

    /// The place of the first judging of a class, or None where none is in.
    pub fn first<L: Ledger>(&self, class: Class, steps: &mut Steps<L>) -> Option<usize>
        ensures least { IfSome result (IsLeast (of_class self.now class).numbers) }
        ensures none { IfNone result (IsEmpty (of_class self.now class).numbers) }
        ensures cost { steps.new ≤ steps.old + (of_class self.now class).top_words + 2 }
        ensures none_cost { IfNone result (steps.new ≤ steps.old + (of_class self.now class).top_words) }
    {
        match class {
            Class::High => self.high.first(steps),
            Class::Normal => self.normal.first(steps),
            Class::Low => self.low.first(steps),
        }
    }
}
