ghost use Rattle.std.specs.Prelude.{◌≡◌, ◌≢◌, ℕ, ◌+◌, ◌/◌, ◌^◌, ◌<◌, ◌⊎◌, ◌≤◌, ◌++◌, ◌∷◌, [], length, replicate, IfOk, IfSome, IfNone, OnOk, OnErr, ◌↔◌, true, false};
ghost use Rattle.task_tree.specs.Bits.{word, bit, IsInserted, IsRemoved, IsCut, IsLeast, IsLeastAt, IsEmpty};

use crate::bits::{bits_below, lowest_bit, with_bit, without_bit};
use crate::steps::Steps;
use std::alloc::{AllocError, Global};
use std::marker::{Brand, Model};
use std::sync::ledger::{Blank, Ledger};

/// A set of numbers in words of 64 bits: the number k is bit k % 64 of word k / 64, and bit 0 is the least.
/// Contracts see the list of words.
#[derive(Drop)]
pub struct Words {
    words: Vec<u64>,
}

impl Model for Words {
    ghost use Rattle.std.specs.Prelude.{ℕ, List, ◌≤◌, ◌^◌, vec_len};

    ghost Value = { List ℕ };

    ghost view = { λ w. w.words.items };

    ghost invariant = { λ w. vec_len w.words ≤ 2 ^ 32 };
}

impl Words {
    /// No words, and so no room for a number.
    pub fn new(alloc: Global) -> Words
        ensures { result ≡ [] }
    {
        Words {
            words: Vec::new(alloc),
        }
    }

    /// `count` words of zeros: an empty set with room for 64 numbers a word.
    pub fn zeros(alloc: Global, count: usize) -> Result<Words, AllocError>
        requires { count ≤ 2 ^ 32 }
        ensures { IfOk result (λ words. words ≡ replicate count 0) }
    {
        Ok(Words {
            words: vec![in alloc; 0; count]?,
        })
    }

    /// How many words there are.
    pub fn len(&self) -> usize
        ensures count { result ≡ length self.now }
        ensures few { length self.now ≤ 2 ^ 32 }
    {
        self.words.len()
    }

    /// The word at a place. Reading it is one step. Whoever looks for a number reads words in this way alone;
    /// `insert` and `remove` change a word in place.
    #[inline(always)]
    pub fn at<L: Ledger>(&self, place: usize, steps: &mut Steps<L>) -> u64
        requires { place < length self.now }
        ensures value { result ≡ word self.now place }
        ensures few { length self.now ≤ 2 ^ 32 }
        ensures cost { steps.new ≡ steps.old + 1 }
    {
        steps.tick();
        self.words[place]
    }

    /// Makes room for the number: adds a word of zeros where the number lies just behind the last word.
    #[tactic(auto, using(crate::proofs::Bitwise::zero_pushed))]
    pub fn extend_to(&mut self, number: usize) -> Result<(), AllocError>
        requires next { number / 64 ≤ length self.old }
        requires small { number < 2 ^ 32 }
        ensures same { (p : ℕ) → word self.new p ≡ word self.old p }
        ensures least { length self.old ≤ length self.new }
        ensures most { (length self.new ≡ length self.old) ⊎ (length self.new ≡ number / 64 + 1) }
        ensures within { OnOk result (number / 64 < length self.new) }
    {
        if number / 64 == self.words.len() {
            self.words.push(0)?;
        }
        Ok(())
    }

    /// Puts the number in, for which there is room.
    pub fn insert(&mut self, number: usize)
        requires { number / 64 < length self.old }
        ensures { IsInserted self.old self.new number }
    {
        let place = number / 64;
        let word = self.words[place];
        self.words[place] = with_bit(word, (number % 64) as u32);
    }

    /// Takes the number out, and says whether its word is empty then.
    pub fn remove(&mut self, number: usize) -> bool
        requires { number / 64 < length self.old }
        ensures removed { IsRemoved self.old self.new number }
        ensures empty { result ≡ true ↔ (word self.new (number / 64) ≡ 0) }
    {
        let place = number / 64;
        let word = self.words[place];
        let left = without_bit(word, (number % 64) as u32);
        self.words[place] = left;
        left == 0
    }

    /// Takes out this number and all behind it, a word at a time.
    pub fn cut(&mut self, from: usize)
        ensures { IsCut self.old self.new from }
    {
        for place in from / 64..self.words.len() {
            let below = from.saturating_sub(place * 64);
            self.words[place] = bits_below(self.words[place], below as u32);
        }
    }

    /// Whether no number is in.
    pub fn is_empty(&self) -> bool
        ensures empty { result ≡ true → IsEmpty self.now }
        ensures some { result ≡ false → (k : ℕ) × (bit self.now k ≡ 1) }
    {
        is_empty_from::<Brand>(self, Blank::new(1))
    }

    /// The least number in the word at a place, which is not 0.
    #[tactic(auto, using(crate::proofs::Bitwise::least_at))]
    pub fn first_at<L: Ledger>(&self, place: usize, steps: &mut Steps<L>) -> usize
        requires within { place < length self.now }
        requires some { word self.now place ≢ 0 }
        ensures least { IsLeastAt self.now place result }
        ensures cost { steps.new ≡ steps.old + 1 }
    {
        let word = self.at(place, steps);
        place * 64 + lowest_bit(word) as usize
    }

    /// The least number, or None in an empty set. It reads the words in their order, up to the first that is
    /// not 0.
    pub fn first<L: Ledger>(&self, steps: &mut Steps<L>) -> Option<usize>
        ensures least { IfSome result (IsLeast self.now) }
        ensures none { IfNone result (IsEmpty self.now) }
        ensures cost { steps.new ≤ steps.old + length self.now }
    {
        for place in 0..self.len() {
            let word = self.at(place, steps);
            if word != 0 {
                return Some(place * 64 + lowest_bit(word) as usize);
            }
        }
        None
    }
}

/// Whether no number is in. It counts its steps from nothing, and nobody is told how many they are.
fn is_empty_from<L: Ledger>(words: &Words, blank: Blank) -> bool
    requires name { blank.name ≡ L.name }
    requires parts { blank.parts ≡ L.parts }
    requires one { blank.parts ≡ 1 }
    ensures empty { result ≡ true → IsEmpty words.now }
    ensures some { result ≡ false → (k : ℕ) × (bit words.now k ≡ 1) }
{
    let mut steps = Steps::<L>::new(blank);
    match words.first(&mut steps) {
        Some(_) => false,
        None => true,
    }
}
