ghost use Rattle.std.specs.Prelude.{◌≡◌, ◌≤◌, ◌<◌, ◌^◌, true, false, length, take, slice_index, IfNone, IfSome};
ghost use Rattle.std.specs.List.{list_all};
ghost use Rattle.farm_model.specs.Numbers.{number_of, moment_of, leads_well, is_digit, value_from};
ghost use Rattle.command_text.specs.Digits.{IsOver};
ghost use Rattle.command_text.specs.Limited.{number_within};

/// The number that the word stands for: decimal digits without a leading zero, at most 4294967295.
pub fn read_number(word: &[u8]) -> Option<u32>
    ensures { result ≡ number_of word.now }
{
    let number = read_within(word, u32::MAX as u64)?;
    Some(number as u32)
}

/// The moment that the word stands for: at most 18 decimal digits without a leading zero.
pub fn read_moment(word: &[u8]) -> Option<u64>
    ensures { result ≡ moment_of word.now }
{
    read_within(word, 999_999_999_999_999_999)
}

/// The number that the word stands for, if it is at most the limit.
fn read_within(word: &[u8], limit: u64) -> Option<u64>
    requires { limit < 10 ^ 18 }
    ensures value { result ≡ number_within limit word.now }
    ensures within { IfSome result (λ n. n ≤ limit) }
{
    if leads_well(word) {
        read_digits(word, limit)
    } else {
        None
    }
}

/// Whether there is a digit, and no zero in front unless it is all.
pub fn leads_well(word: &[u8]) -> bool
    ensures { result ≡ leads_well word.now }
{
    match word {
        [] => false,
        [first, rest @ ..] => *first != b'0' || rest.is_empty(),
    }
}

/// The number of a word that leads well, if it is at most the limit.
#[tactic(auto, using(crate::proofs::NumberLemmas::over_limit))]
fn read_digits(word: &[u8], limit: u64) -> Option<u64>
    requires leads { leads_well word.now ≡ true }
    requires limit { limit < 10 ^ 18 }
    ensures value { result ≡ number_within limit word.now }
    ensures within { IfSome result (λ n. n ≤ limit) }
{
    let (number, len) = leading_digits(word, limit)?;
    if len < word.len() {
        return None;
    }
    Some(number)
}

/// The number of the digits that begin the text, and how many there are. None where it is over the limit.
pub fn leading_digits(text: &[u8], limit: u64) -> Option<(u64, usize)>
    requires limit { limit < 10 ^ 18 }
    ensures over { IfNone result (IsOver limit text.now) }
    ensures value { IfSome result (λ r. r.0 ≡ value_from 0 (take r.1 text.now)) }
    ensures digits { IfSome result (λ r. list_all is_digit (take r.1 text.now) ≡ true) }
    ensures within { IfSome result (λ r. r.0 ≤ limit) }
    ensures len { IfSome result (λ r. r.1 ≤ length text.now) }
    ensures end { IfSome result (λ r. r.1 < length text.now → is_digit (slice_index text.now r.1) ≡ false) }
{
    let mut value: u64 = 0;
    for (i, b) in text.iter().enumerate() {
        if !b.is_ascii_digit() {
            return Some((value, i));
        }
        value = value * 10 + (*b - b'0') as u64;
        if value > limit {
            return None;
        }
    }
    Some((value, text.len()))
}
