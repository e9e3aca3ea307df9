ghost use Rattle.std.specs.Prelude.{◌≡◌, ◌≤◌};
ghost use Rattle.wire_json.specs.Strings.{behind, weight, bytes_in_strings, has_too_long_strings};

/// Where a byte of a JSON text stands (RFC 8259, section 7).
#[derive(Clone, Copy, Debug, PartialEq, Eq)]
pub enum Position {
    /// Outside of strings.
    Outside,
    /// In a string, or its closing quote.
    Inside,
    /// In a string, behind a backslash.
    Escaped,
}

impl Position {
    /// Where the byte behind this one stands.
    fn behind(self, b: u8) -> Position
        ensures { result ≡ behind self b }
    {
        match self {
            Position::Outside => {
                if b == b'"' {
                    return Position::Inside;
                }
                Position::Outside
            }
            Position::Inside => {
                if b == b'"' {
                    return Position::Outside;
                }
                if b == b'\\' {
                    return Position::Escaped;
                }
                Position::Inside
            }
            Position::Escaped => Position::Inside,
        }
    }

    /// How many bytes it counts as: one in a string, none outside.
    fn weight(self) -> usize
        ensures weight { result ≡ weight self }
        ensures most { result ≤ 1 }
    {
        match self {
            Position::Outside => 0,
            Position::Inside | Position::Escaped => 1,
        }
    }
}

/// How many bytes of a body stand in strings, their closing quotes with them.
#[tactic(auto, using(crate::proofs::StringBytes::one_byte_more, crate::proofs::StringBytes::no_byte_more))]
fn bytes_in_strings(bytes: &[u8]) -> usize
    ensures { result ≡ bytes_in_strings Position.Outside bytes.now }
{
    let mut position = Position::Outside;
    let mut count = 0;
    for b in bytes {
        count += position.weight();
        position = position.behind(*b);
    }
    count
}

/// How many bytes of a body may stand in strings.
const MOST_STRING_BYTES: usize = 1_048_576;

/// Whether the strings of a body are longer than those that are read.
pub fn has_too_long_strings(bytes: &[u8]) -> bool
    ensures { result ≡ has_too_long_strings bytes.now }
{
    bytes_in_strings(bytes) > MOST_STRING_BYTES
}
