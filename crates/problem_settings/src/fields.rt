ghost use Rattle.std.specs.Prelude.{◌≡◌, ◌<◌, length, IfSome};
ghost use Rattle.std.specs.Option.{option_map};
ghost use Rattle.problem_settings.specs.Fields.{colon_from, field_of};
ghost use Rattle.problem_settings.specs.Views.{field_value};

use crate::bytes::{after_spaces, ends_word};

/// What a line says: KEY: VALUE.
#[derive(Clone, Copy)]
pub(crate) struct Field<'a> {
    pub key: &'a [u8],
    pub value: &'a [u8],
}

/// Where the colon stands that ends the key.
fn colon_of(text: &[u8]) -> Option<usize>
    ensures value { result ≡ colon_from 0 text.now }
    ensures within { IfSome result (λ at. at < length text.now) }
{
    for (i, b) in text.iter().enumerate() {
        if *b == b':' && ends_word(&text[i + 1..]) {
            return Some(i);
        }
    }
    None
}

/// The key and the value of a line, from its first byte past the indentation.
pub(crate) fn field_of(text: &[u8]) -> Option<Field<'_>>
    ensures { option_map field_value result ≡ field_of text.now }
{
    let at = colon_of(text)?;
    Some(Field {
        key: &text[..at],
        value: after_spaces(&text[at + 1..]),
    })
}
