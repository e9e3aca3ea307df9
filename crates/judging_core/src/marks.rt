ghost use Rattle.std.specs.Int.{bit_at};
ghost use Rattle.std.specs.Prelude.{◌≡◌, ◌≢◌, ℕ, ◌<◌, ◌≤◌, ◌-◌, ◌^◌, ◌==◌, length, replicate, slice_get, slice_set, true, false, Some, IfOk};

use farm_kinds::NoMemory;
use std::alloc::Global;
use std::marker::Model;

/// For each test of a judging whether its task was ever handed out. It takes a bit a test; contracts see the
/// list.
#[derive(Drop)]
pub struct Marks {
    tests: u16,
    /// Test t is bit (t - 1) % 64 of word (t - 1) / 64.
    words: Vec<u64>,
}

impl Model for Marks {
    ghost use Rattle.std.specs.Prelude.{List, Bool};

    ghost Value = { List Bool };

    ghost use Rattle.judging_core.specs.MarksLayout.{marks_value, IsMarksLayout};

    ghost view = { marks_value };

    ghost invariant = { IsMarksLayout };
}

impl Marks {
    /// So many tests, none of which is marked.
    pub fn new(alloc: Global, tests: u16) -> Result<Marks, NoMemory>
        ensures { IfOk result (λ marks. marks ≡ replicate tests false) }
    {
        let words = zeros(alloc, (tests as usize + 63) / 64)?;
        Ok(Marks { tests, words })
    }

    /// How many tests there are.
    pub fn len(&self) -> u16
        ensures { result ≡ length self.now }
    {
        self.tests
    }

    /// Whether there is no test.
    pub fn is_empty(&self) -> bool
        ensures { result ≡ (length self.now == 0) }
    {
        self.tests == 0
    }

    /// Whether the test is marked.
    pub fn has(&self, test: u16) -> bool
        requires low { 1 ≤ test }
        requires high { test ≤ length self.now }
        ensures { slice_get self.now (test - 1) ≡ Some result }
    {
        let number = test as usize - 1;
        let word = self.words[number / 64];
        (word >> (number % 64)) % 2 == 1
    }

    /// Marks the test.
    pub fn mark(&mut self, test: u16)
        requires low { 1 ≤ test }
        requires high { test ≤ length self.old }
        ensures { self.new ≡ slice_set self.old (test - 1) true }
    {
        let number = test as usize - 1;
        let word = self.words[number / 64];
        self.words[number / 64] = with_bit(word, (number % 64) as u32);
    }
}

/// So many words of zeros.
fn zeros(alloc: Global, count: usize) -> Result<Vec<u64>, NoMemory>
    ensures { IfOk result (λ words. words.items ≡ replicate count 0) }
{
    vec![in alloc; 0; count].map_err(|_| NoMemory)
}

/// The word with the bit at this place set.
fn with_bit(word: u64, place: u32) -> u64
    requires { place < 64 }
    ensures set { bit_at result place ≡ 1 }
    ensures others { (i : ℕ) → i ≢ place → bit_at result i ≡ bit_at word i }
{
    word | (1 << place)
}
