ghost use Rattle.std.specs.Prelude.{◌≡◌, ◌≢◌, ◌≤◌, ◌<◌, ◌+◌, [], ◌∷◌, List, ℕ, length, take, drop, IfSome, IfNone, slice_index};
ghost use Rattle.farm_model.specs.Words.{words};
ghost use Rattle.command_text.specs.NextWord.{IsWord};

/// Where the first word begins.
#[tactic(auto, using(crate::proofs::WordLemmas::spaces_more))]
pub fn start_of(text: &[u8]) -> usize
    ensures within { result ≤ length text.now }
    ensures words { words (drop result text.now) ≡ words text.now }
    ensures word { result < length text.now → slice_index text.now result ≢ 32 }
{
    for (i, b) in text.iter().enumerate() {
        if *b != b' ' {
            return i;
        }
    }
    text.len()
}

/// How long the word is that begins the text.
#[tactic(auto, using(crate::proofs::WordLemmas::word_more))]
fn len_of_word(text: &[u8]) -> usize
    ensures within { result ≤ length text.now }
    ensures word { IsWord (take result text.now) }
    ensures end { result < length text.now → slice_index text.now result ≡ 32 }
{
    for (i, b) in text.iter().enumerate() {
        if *b == b' ' {
            return i;
        }
    }
    text.len()
}

/// The word that begins the text, and what follows it.
fn cut_word(text: &[u8]) -> (&[u8], &[u8])
    requires some { 0 < length text.now }
    requires word { slice_index text.now 0 ≢ 32 }
    ensures { words text.now ≡ result.0.now ∷ words result.1.now }
{
    text.split_at(len_of_word(text))
}

/// The first word of a line, and what follows it.
#[tactic(auto, using(crate::proofs::WordLemmas::first_at))]
pub fn next_word(text: &[u8]) -> Option<(&[u8], &[u8])>
    ensures none { IfNone result (words text.now ≡ []) }
    ensures some { IfSome result (λ r. words text.now ≡ r.0.now ∷ words r.1.now) }
{
    let text = &text[start_of(text)..];
    if text.is_empty() {
        return None;
    }
    Some(cut_word(text))
}
