ghost use Rattle.std.specs.Prelude.{◌≡◌, ◌≤◌, ◌<◌, [], ◌∷◌, length, take, drop, IfSome, IfNone};
ghost use Rattle.std.specs.List.{prefix_len};
ghost use Rattle.default_validator.specs.Pieces.{is_space, tokens};
ghost use Rattle.default_validator.specs.Cuts.{is_token_byte, IsInToken, IsCommon, ends_token};

fn is_space(b: u8) -> bool
    ensures { result ≡ is_space b }
{
    // Most bytes of a text stand above all white space, and one test tells.
    b <= b' ' && (b == b' ' || (b >= 9 && b <= 13))
}

/// How many bytes of white space stand in front.
fn gap_len(text: &[u8]) -> usize
    ensures { result ≡ prefix_len is_space text.now }
{
    for (i, b) in text.iter().enumerate() {
        if !is_space(*b) {
            return i;
        }
    }
    text.len()
}

/// How many bytes stand in front of the first white space.
fn token_len(text: &[u8]) -> usize
    ensures { result ≡ prefix_len is_token_byte text.now }
{
    for (i, b) in text.iter().enumerate() {
        if is_space(*b) {
            return i;
        }
    }
    text.len()
}

/// The white space in front, and what follows it.
#[tactic(auto, using(crate::proofs::Fronts::front_within))]
pub fn cut_gap(text: &[u8]) -> (&[u8], &[u8])
    ensures gap { result.0.now ≡ take (prefix_len is_space text.now) text.now }
    ensures rest { result.1.now ≡ drop (prefix_len is_space text.now) text.now }
{
    text.split_at(gap_len(text))
}

/// The token in front, of which the first `known` bytes are known, and what follows it.
#[tactic(auto, using(crate::proofs::Fronts::front_within, crate::proofs::Fronts::known_front))]
pub fn cut_token(text: &[u8], known: usize) -> (&[u8], &[u8])
    requires { IsInToken text.now known }
    ensures token { result.0.now ≡ take (prefix_len is_token_byte text.now) text.now }
    ensures rest { result.1.now ≡ drop (prefix_len is_token_byte text.now) text.now }
{
    text.split_at(known + token_len(&text[known..]))
}

/// The first token, and what follows it.
#[tactic(auto, using(crate::proofs::Fronts::front_is, crate::proofs::Fronts::blank_is, crate::proofs::Fronts::after_token_shorter))]
pub fn next_token(text: &[u8]) -> Option<(&[u8], &[u8])>
    ensures none { IfNone result (tokens text.now ≡ []) }
    ensures some { IfSome result (λ r. tokens text.now ≡ r.0.now ∷ tokens r.1.now) }
    ensures shorter { IfSome result (λ r. length r.1.now < length text.now) }
{
    let (_, text) = cut_gap(text);
    if text.is_empty() {
        return None;
    }
    Some(cut_token(text, 0))
}

/// Whether the bytes of a token end there.
pub fn ends_at(text: &[u8], len: usize) -> bool
    requires { len ≤ length text.now }
    ensures { result ≡ ends_token text.now len }
{
    len == text.len() || is_space(text[len])
}

/// How many bytes of a token stand in front of both texts and are the same.
pub fn common_len(answer: &[u8], output: &[u8]) -> usize
    ensures { IsCommon answer.now output.now result }
{
    let limit = answer.len().min(output.len());
    let mut len = 0;
    while len < limit && answer[len] == output[len] && !is_space(answer[len]) {
        len += 1;
    }
    len
}
