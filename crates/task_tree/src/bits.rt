ghost use Rattle.std.specs.Prelude.{◌≡◌, ◌≢◌, ℕ, ◌<◌, ◌≤◌, ◌^◌};
ghost use Rattle.std.specs.Int.{bit_at};

/// The word with the bit at this place set.
#[inline(always)]
pub fn with_bit(word: u64, place: u32) -> u64
    requires { place < 64 }
    ensures set { bit_at result place ≡ 1 }
    ensures others { (i : ℕ) → i ≢ place → bit_at result i ≡ bit_at word i }
{
    word | (1 << place)
}

/// The word with the bit at this place cleared.
#[inline(always)]
pub fn without_bit(word: u64, place: u32) -> u64
    requires { place < 64 }
    ensures clear { bit_at result place ≡ 0 }
    ensures others { (i : ℕ) → i < 64 → i ≢ place → bit_at result i ≡ bit_at word i }
    ensures zero { word ≡ 0 → result ≡ 0 }
{
    word & !(1 << place)
}

/// The word's bits below this place, without the others.
#[inline(always)]
pub fn bits_below(word: u64, place: u32) -> u64
    requires { place < 64 }
    ensures below { (i : ℕ) → i < place → bit_at result i ≡ bit_at word i }
    ensures above { (i : ℕ) → place ≤ i → bit_at result i ≡ 0 }
{
    word % (1 << place)
}

/// The place of the lowest bit that is set.
#[inline(always)]
pub fn lowest_bit(word: u64) -> u32
    requires { word ≢ 0 }
    ensures within { result < 64 }
    ensures set { bit_at word result ≡ 1 }
    ensures lowest { (i : ℕ) → i < result → bit_at word i ≡ 0 }
{
    word.trailing_zeros()
}
