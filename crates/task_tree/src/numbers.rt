ghost use Rattle.std.specs.Prelude.{◌≡◌, ℕ, ◌+◌, ◌*◌, ◌/◌, ◌^◌, ◌<◌, ◌≤◌, ◌⊎◌, [], length, IfSome, IfNone, OnOk};
ghost use Rattle.task_tree.specs.Bits.{bit, IsInserted, IsRemoved, IsLeast, IsEmpty};
ghost use Rattle.task_tree.specs.Numbers.{Numbers};

use crate::steps::Steps;
use crate::words::Words;
use std::alloc::{AllocError, Global};
use std::marker::Model;
use std::sync::ledger::Ledger;

/// A set of numbers below 2^19, whose least number is found in a few readings. The bottom has a bit for each
/// number; each level above it has a bit for each word of the level below that is not 0.
#[derive(Drop)]
pub struct NumberSet {
    bottom: Words,
    middle: Words,
    top: Words,
}

impl Model for NumberSet {
    ghost use Rattle.std.specs.Prelude.{length};
    ghost use Rattle.task_tree.specs.Numbers.{Numbers, IsLeveled};

    ghost Value = { Numbers };

    ghost view = { λ a. record { numbers = a.bottom; top_words = length a.top } };

    ghost invariant = { λ a. IsLeveled a.bottom a.middle a.top };
}

impl NumberSet {
    /// The empty set, with no room.
    pub fn new(alloc: Global) -> NumberSet
        ensures { result ≡ record { numbers = []; top_words = 0 } }
    {
        NumberSet {
            bottom: Words::new(alloc),
            middle: Words::new(alloc),
            top: Words::new(alloc),
        }
    }

    /// Makes room for the number. Numbers get room in their order: this one is the first without room, or has
    /// it. At an error the set is the same; a level may have room that the level below has not.
    pub fn reserve(&mut self, number: usize) -> Result<(), AllocError>
        requires next { number / 64 ≤ length self.old.numbers }
        requires small { number < 2 ^ 19 }
        ensures same { (i : ℕ) → bit self.new.numbers i ≡ bit self.old.numbers i }
        ensures grows { length self.old.numbers ≤ length self.new.numbers }
        ensures within { OnOk result (number / 64 < length self.new.numbers) }
        ensures top_words { (self.new.top_words ≡ self.old.top_words) ⊎ (self.new.top_words ≡ number / 64 / 64 / 64 + 1) }
    {
        // From the top down, so that each word that is there has its bit above.
        self.top.extend_to(number / 64 / 64)?;
        self.middle.extend_to(number / 64)?;
        self.bottom.extend_to(number)
    }

    /// Puts the number in, for which there is room.
    pub fn insert(&mut self, number: usize)
        requires { number / 64 < length self.old.numbers }
        ensures inserted { IsInserted self.old.numbers self.new.numbers number }
        ensures top_words { self.new.top_words ≡ self.old.top_words }
    {
        self.bottom.insert(number);
        self.middle.insert(number / 64);
        self.top.insert(number / 64 / 64);
    }

    /// Takes the number out. An upper bit is cleared once the word below it has no number left.
    pub fn remove(&mut self, number: usize)
        requires { number / 64 < length self.old.numbers }
        ensures removed { IsRemoved self.old.numbers self.new.numbers number }
        ensures top_words { self.new.top_words ≡ self.old.top_words }
    {
        if !self.bottom.remove(number) {
            return;
        }
        if self.middle.remove(number / 64) {
            self.top.remove(number / 64 / 64);
        }
    }

    /// The least number, or None in an empty set. It tries the top's words one after the other.
    pub fn first<L: Ledger>(&self, steps: &mut Steps<L>) -> Option<usize>
        ensures least { IfSome result (IsLeast self.now.numbers) }
        ensures none { IfNone result (IsEmpty self.now.numbers) }
        ensures cost { steps.new ≤ steps.old + self.now.top_words + 2 }
        ensures none_cost { IfNone result (steps.new ≤ steps.old + self.now.top_words) }
    {
        match self.top.first(steps) {
            None => None,
            Some(top) => {
                let middle = self.middle.first_at(top, steps);
                Some(self.bottom.first_at(middle, steps))
            }
        }
    }
}
