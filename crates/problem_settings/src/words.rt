ghost use Rattle.std.specs.Prelude.{◌≡◌, ◌≤◌, [], length, min, IfOk, OnErr, IfSome, vec_capacity};
ghost use Rattle.std.specs.Option.{option_map};
ghost use Rattle.problem_settings.specs.Fields.{is_empty, ends_word, after_spaces};
ghost use Rattle.problem_settings.specs.Scalars.{number_of_digits};
ghost use Rattle.problem_settings.specs.ProblemYaml.{after_word};
ghost use Rattle.problem_settings.specs.Views.{scalar_text, scalar_size};

use crate::scalars::Scalar;
use farm_kinds::{NoMemory, Text};
use std::alloc::Global;

impl<'a> Scalar<'a> {
    /// Whether the text has no byte.
    pub(crate) fn is_empty(&self) -> bool
        ensures { result ≡ is_empty (scalar_text self.now) }
    {
        self.next().is_none()
    }

    /// Whether the text is at its end, or at a space.
    fn ends_word(&self) -> bool
        ensures { result ≡ ends_word (scalar_text self.now) }
    {
        match self.next() {
            None => true,
            Some((first, _)) => first == b' ',
        }
    }

    /// Without the spaces in front.
    pub(crate) fn after_spaces(&self) -> Scalar<'a>
        ensures { scalar_text result ≡ after_spaces (scalar_text self.now) }
    {
        let mut left = *self;
        while let Some((first, rest)) = left.next() {
            if first != b' ' {
                return left;
            }
            left = rest;
        }
        left
    }

    /// What follows the word in front. None where another stands there.
    #[tactic(auto, using(crate::proofs::FieldLemmas::word_cut))]
    pub(crate) fn after_word(&self, word: &[u8]) -> Option<Scalar<'a>>
        ensures { option_map scalar_text result ≡ after_word word.now (scalar_text self.now) }
    {
        let mut left = *self;
        for w in word {
            match left.next() {
                None => return None,
                Some((first, rest)) => {
                    if first != *w {
                        return None;
                    }
                    left = rest;
                }
            }
        }
        if left.ends_word() { Some(left) } else { None }
    }

    /// The number that the text is, or 1,000,001 where that is less. None where the text is no number.
    #[tactic(auto, using(crate::proofs::NumberLemmas::held_more))]
    pub(crate) fn number(&self) -> Option<u32>
        ensures value { result ≡ option_map (λ n. min n 1000001) (number_of_digits (scalar_text self.now)) }
        ensures small { IfSome result (λ n. n ≤ 1000001) }
    {
        if self.is_empty() {
            return None;
        }
        let mut left = *self;
        let mut number: u32 = 0;
        while let Some((digit, rest)) = left.next() {
            if !digit.is_ascii_digit() {
                return None;
            }
            number = (number * 10 + u32::from(digit - b'0')).min(1_000_001);
            left = rest;
        }
        Some(number)
    }

    /// How many bytes are held of it.
    fn size(&self) -> usize
        ensures { result ≡ scalar_size self.now }
    {
        match self {
            Scalar::Plain(text) => text.len(),
            Scalar::Single(text) => text.len(),
            Scalar::Double(text) => text.len(),
        }
    }

    /// How many bytes the text has.
    fn len(&self) -> usize
        ensures { result ≡ length (scalar_text self.now) }
    {
        let most = self.size();
        let mut left = *self;
        let mut len = 0;
        while let Some((_, rest)) = left.next() {
            prove!(len < most);
            len += 1;
            left = rest;
        }
        len
    }

    /// The bytes of the text, in the room that was made for them.
    fn fill(&self, room: Vec<u8>) -> Vec<u8>
        requires blank { room.items ≡ [] }
        requires enough { length (scalar_text self.now) ≤ vec_capacity room }
        ensures { result.items ≡ scalar_text self.now }
    {
        let mut bytes = room;
        let mut left = *self;
        while let Some((first, rest)) = left.next() {
            bytes.push_reserved(first);
            left = rest;
        }
        bytes
    }

    /// The text, kept. An empty one takes no memory.
    pub(crate) fn to_text(&self, alloc: Global) -> Result<Text, NoMemory>
        ensures ok { IfOk result (λ text. text ≡ scalar_text self.now) }
        ensures wanted { OnErr result (1 ≤ length (scalar_text self.now)) }
    {
        let len = self.len();
        if len == 0 {
            return Ok(Text::new(alloc));
        }
        let room = Vec::with_capacity(alloc, len)?;
        Ok(Text::from_vec(self.fill(room)))
    }
}
