ghost use Rattle.std.proofs.Common.{rules};
ghost use Rattle.std.specs.Prelude.{◌≡◌, ◌∷◌, [], ℕ, List, nat_eq, codes, true};
ghost use Rattle.std.specs.List.{list_all};
ghost use Rattle.std.specs.Cmp.{partial_equiv_from_equiv};
ghost use Rattle.std.specs.Cmp.Rules.{hashing};
ghost use Rattle.std.specs.Cmp.Lexicographic.{pointwise, nat_list_eq_equiv};
ghost use Rattle.farm_kinds.specs.Names.{name_read, is_name, is_name_byte, jury};

use std::hash::{Hash, Hasher};
use std::marker::Model;

/// The name of a problem, a host, or one who acts: 1 to 32 letters, digits, `_` and `-`.
///
/// It is kept in place, so it is copied without taking memory. Contracts see the list of its bytes.
#[derive(Clone, Copy, Debug)]
pub struct Name {
    bytes: [u8; 32],
    len: u8,
}

impl Model for Name {
    ghost use Rattle.std.specs.Prelude.{ℕ, List};

    ghost Value = { List ℕ };

    ghost use Rattle.farm_kinds.specs.NameShape.{name_text, IsNameShape, name_fields, name_fields_back};

    ghost view = { name_text };

    ghost invariant = { IsNameShape };

    ghost inverse = { name_fields };

    ghost inverse_ok = { name_fields_back };
}

impl Name {
    /// The name that the word is. None where the word is no name.
    pub fn read(word: &[u8]) -> Option<Name>
        ensures { result ≡ name_read word.now }
    {
        if !is_name(word) {
            return None;
        }
        let mut bytes = [0u8; 32];
        bytes[..word.len()].copy_from_slice(word);
        let len = word.len() as u8;
        Some(Name { bytes, len })
    }

    /// Who acts where no one is named.
    pub fn jury() -> Name
        ensures { result ≡ jury }
    {
        let mut bytes = [0u8; 32];
        bytes[..4].copy_from_slice(b"jury");
        Name { bytes, len: 4 }
    }

    /// The name's bytes.
    pub fn as_bytes(&self) -> &[u8]
        ensures bytes { result.now ≡ self.now }
        ensures name { is_name result.now ≡ true }
    {
        &self.bytes[..self.len as usize]
    }
}

impl PartialEq for Name {
    ghost eq = { λ a b. pointwise nat_eq a b };

    ghost laws = { partial_equiv_from_equiv nat_list_eq_equiv };

    fn eq(&self, other: &Self) -> bool {
        self.as_bytes() == other.as_bytes()
    }
}

impl Eq for Name {
    ghost laws = { nat_list_eq_equiv };
}

impl Hash for Name {
    ghost hash_input = { λ s. s ∷ [] };

    ghost respects_eq = { Prim.search (hashing, rules) };

    fn hash<H: Hasher>(&self, state: &mut H) {
        state.write(self.as_bytes());
    }
}

fn is_name(word: &[u8]) -> bool
    ensures { result ≡ is_name word.now }
{
    if word.is_empty() || word.len() > 32 {
        return false;
    }
    has_name_bytes(word)
}

fn has_name_bytes(word: &[u8]) -> bool
    ensures { result ≡ list_all is_name_byte word.now }
{
    word.iter().all(|b| is_name_byte(*b))
}

fn is_name_byte(b: u8) -> bool
    ensures { result ≡ is_name_byte b }
{
    b.is_ascii_alphanumeric() || b == b'_' || b == b'-'
}
