//! What the words have to be before `clap` reads them.
ghost use Rattle.std.specs.Prelude.{◌≡◌, ◌||◌, ◌==◌, map, not, option_map, string_bytes, Some, None};
ghost use Rattle.std.specs.List.{list_all};
ghost use Rattle.clap.specs.Lexer.{strip_byte, name_and_value};
ghost use Rattle.command_line.specs.Checks.{is_control, is_user, is_value, joined_value, is_plain, are_plain};

/// Whether each word past the first is plain.
pub(crate) fn are_plain(words: &[String]) -> bool
    ensures { result ≡ are_plain (map string_bytes words.now) }
{
    match words {
        [] => true,
        [_, rest @ ..] => all_plain(rest),
    }
}

/// Whether each of the words is plain.
fn all_plain(words: &[String]) -> bool
    ensures { result ≡ list_all (λ word. is_plain (string_bytes word)) words.now }
{
    words.iter().all(|word| is_plain(word.as_str()))
}

/// Whether the word is not empty, `-` or `--`, and what stands in it behind the `=` of an option is a value.
pub(crate) fn is_plain(word: &str) -> bool
    ensures { result ≡ is_plain word.now }
{
    if word.is_empty() || word == "-" || word == "--" {
        return false;
    }
    match joined_value(word) {
        Some(value) => is_value(value),
        None => true,
    }
}

/// Whether the byte is a control character.
fn is_control(b: u8) -> bool
    ensures { result ≡ is_control b }
{
    b < 0x20 || b == 0x7f
}

/// Whether a user may have this byte.
fn is_of_user(b: u8) -> bool
    ensures { result ≡ not (b == 58 || is_control b) }
{
    b != b':' && !is_control(b)
}

/// Whether the text names a user of basic authentication: it has no colon and no control character.
pub(crate) fn is_user(text: &str) -> bool
    ensures { result ≡ is_user text.now }
{
    text.as_bytes().iter().all(|b| is_of_user(*b))
}

/// A value is not empty, and does not begin with `-`.
fn is_value(text: &str) -> bool
    ensures { result ≡ is_value text.now }
{
    match text.as_bytes() {
        [] => false,
        [first, ..] => *first != b'-',
    }
}

/// The value of an option that stands in one word with it.
pub(crate) fn joined_value(word: &str) -> Option<&str>
    ensures { option_map (λ value. value.now) result ≡ joined_value word.now }
{
    let option = without_dash(without_dash(word)?)?;
    value_behind_sign(option)
}

/// What follows a first `-`.
fn without_dash(word: &str) -> Option<&str>
    ensures { option_map (λ rest. rest.now) result ≡ strip_byte 45 word.now }
{
    word.strip_prefix('-')
}

/// What follows the first `=`.
fn value_behind_sign(option: &str) -> Option<&str>
    ensures { option_map (λ value. value.now) result ≡ (name_and_value option.now).1 }
{
    match option.split_once('=') {
        Some((_, value)) => Some(value),
        None => None,
    }
}
