ghost use Rattle.std.specs.Prelude.{◌≡◌};
ghost use Rattle.wire_job.specs.Units.{leads, begins_plain, units_of};

/// Whether the byte is a digit from 1 to 9.
fn leads(byte: u8) -> bool
    ensures { result ≡ leads byte }
{
    byte >= 49 && byte <= 57
}

/// Whether the text begins as a number that is written: without `+` and without a zero in front.
fn begins_plain(text: &[u8]) -> bool
    ensures { result ≡ begins_plain text.now }
{
    match text {
        [] => false,
        [digit] => digit.is_ascii_digit(),
        [first, second, ..] => leads(*first) || (*first == b'-' && leads(*second)),
    }
}

/// The units that a text says, from -2^127 to 2^127 - 1. None where it is no such number as it is written.
pub fn units_of(text: &str) -> Option<i128>
    ensures { result ≡ units_of text.now }
{
    if begins_plain(text.as_bytes()) {
        return text.parse::<i128>().ok();
    }
    None
}
