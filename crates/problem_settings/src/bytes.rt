ghost use Rattle.std.specs.Prelude.{◌≡◌, ◌≤◌, ◌<◌, ◌∷◌, length, IfSome};
ghost use Rattle.problem_settings.specs.Lines.{is_blank, without_cr, without_mark, parts, parts_behind, size_behind};
ghost use Rattle.problem_settings.specs.Fields.{place_from, indent_of, has_tab, is_indented, ends_word, is_item, after_spaces, trimmed, content_of};

/// Without a byte order mark in front.
pub(crate) fn without_mark(text: &[u8]) -> &[u8]
    ensures { result.now ≡ without_mark text.now }
{
    if text.starts_with(&[0xEF, 0xBB, 0xBF]) {
        &text[3..]
    } else {
        text
    }
}

/// Without a CR at the end.
pub(crate) fn without_cr(text: &[u8]) -> &[u8]
    ensures { result.now ≡ without_cr text.now }
{
    match text {
        [.., b'\r'] => &text[..text.len() - 1],
        _ => text,
    }
}

/// Whether nothing but spaces stands there, or a comment past them.
pub(crate) fn is_blank(text: &[u8]) -> bool
    ensures { result ≡ is_blank text.now }
{
    let mut left = text;
    while let [first, rest @ ..] = left {
        if *first != b' ' {
            return *first == b'#';
        }
        left = rest;
    }
    true
}

/// How many spaces and tabs stand in front.
pub(crate) fn indent_of(text: &[u8]) -> usize
    ensures value { result ≡ indent_of text.now }
    ensures within { result ≤ length text.now }
{
    for (i, b) in text.iter().enumerate() {
        if *b != b' ' && *b != b'\t' {
            return i;
        }
    }
    text.len()
}

/// What stands past them.
pub(crate) fn content_of(text: &[u8]) -> &[u8]
    ensures { result.now ≡ content_of text.now }
{
    &text[indent_of(text)..]
}

/// Whether a tab stands in the indentation.
pub(crate) fn has_tab(text: &[u8]) -> bool
    ensures { result ≡ has_tab text.now }
{
    let mut left = text;
    while let [first, rest @ ..] = left {
        if *first != b' ' {
            return *first == b'\t';
        }
        left = rest;
    }
    false
}

/// Whether a space or a tab stands in front.
pub(crate) fn is_indented(text: &[u8]) -> bool
    ensures { result ≡ is_indented text.now }
{
    match text {
        [] => false,
        [first, ..] => *first == b' ' || *first == b'\t',
    }
}

/// Whether the text is at its end, or at a space.
pub(crate) fn ends_word(text: &[u8]) -> bool
    ensures { result ≡ ends_word text.now }
{
    match text {
        [] => true,
        [first, ..] => *first == b' ',
    }
}

/// Whether the text begins with `-`, alone or before a space, as an item of a list does.
pub(crate) fn is_item(text: &[u8]) -> bool
    ensures { result ≡ is_item text.now }
{
    match text {
        [] => false,
        [first, rest @ ..] => *first == b'-' && ends_word(rest),
    }
}

/// Without the spaces in front.
pub(crate) fn after_spaces(text: &[u8]) -> &[u8]
    ensures { result.now ≡ after_spaces text.now }
{
    let mut left = text;
    while let [first, rest @ ..] = left {
        if *first != b' ' {
            return left;
        }
        left = rest;
    }
    left
}

/// Without the spaces at the end.
pub(crate) fn trimmed(text: &[u8]) -> &[u8]
    ensures { result.now ≡ trimmed text.now }
{
    let mut n = text.len();
    while n > 0 && text[n - 1] == b' ' {
        n -= 1;
    }
    &text[..n]
}

/// Where the first separator stands.
pub(crate) fn place_of(sep: u8, text: &[u8]) -> Option<usize>
    ensures value { result ≡ place_from sep 0 text.now }
    ensures within { IfSome result (λ at. at < length text.now) }
{
    for (i, b) in text.iter().enumerate() {
        if *b == sep {
            return Some(i);
        }
    }
    None
}

/// The part before the first separator, and what stands behind that, where there is one.
#[tactic(auto, using(crate::proofs::PartLemmas::part_more, crate::proofs::PartLemmas::cut_at, crate::proofs::PartLemmas::uncut))]
pub(crate) fn cut(sep: u8, text: &[u8]) -> (&[u8], Option<&[u8]>)
    ensures parts { parts sep text.now ≡ result.0.now ∷ parts_behind sep result.1 }
    ensures shorter { size_behind result.1 ≤ length text.now }
{
    for (i, b) in text.iter().enumerate() {
        if *b == sep {
            return (&text[..i], Some(&text[i + 1..]));
        }
    }
    (text, None)
}
