ghost use Rattle.std.specs.Prelude.{◌≡◌, ◌≤◌, ◌^◌, ◌<◌, ℕ, List, length, take, map, true, ◌==◌, ◌&&◌};
ghost use Rattle.std.specs.List.{All, list_any, list_all};
ghost use Rattle.std.specs.Char.{is_ascii_digit};
ghost use Rattle.httparse.specs.Spans.{IsHeaderWithin, IsWithin, header_bytes, span_bytes};
ghost use Rattle.http_door.specs.Fields.{is_word, is_post, is_length, length_from, next_length, length_with, values_of, length_said, value_from, content_length, transfer_encoding, connection, close, framing_for, framing_by, closes_by};

use httparse::spans::{HeaderSpan, Span};

/// What the fields of a head say of the length of the message body (RFC 9112, section 6.2).
#[derive(Clone, Copy, Debug, PartialEq, Eq)]
pub enum ContentLength {
    /// No field is `content-length`.
    Absent,
    /// One field is, and says so many bytes.
    Given(u64),
    /// More than one field is, or its value is not 1 to 18 digits.
    Invalid,
}

/// How the message body of a request is framed (RFC 9112, section 6.3).
#[derive(Clone, Copy, Debug, PartialEq, Eq)]
pub enum Framing {
    /// It has so many bytes, at most [`BODY_LIMIT`].
    Sized(u64),
    /// The length that the head says is wrong.
    BadLength,
    /// A `POST` says no length, or the head has a transfer coding.
    NoLength,
    /// The length, in bytes, is over [`BODY_LIMIT`].
    TooLong(u64),
}

/// The most bytes of a message body: 32 MiB.
pub const BODY_LIMIT: u64 = 33_554_432;

/// The most digits of a length. So it is below 10^18 and fits.
const LENGTH_DIGITS: usize = 18;

/// Whether the span's word is this one, without regard to ASCII case (RFC 9110, section 5.1).
fn is_word_at(buf: &[u8], span: Span, wanted: &[u8]) -> bool
    requires { IsWithin (length buf.now) span }
    ensures { result ≡ is_word wanted.now (span_bytes buf.now span) }
{
    span.of(buf).eq_ignore_ascii_case(wanted)
}

/// Whether a field has this name.
fn has_field(buf: &[u8], fields: &[HeaderSpan], wanted: &[u8]) -> bool
    requires { All (IsHeaderWithin (length buf.now)) fields.now }
    ensures { result ≡ list_any (λ h. is_word wanted.now (header_bytes buf.now h).0) fields.now }
{
    fields
        .iter()
        .any(|field| is_word_at(buf, field.name, wanted))
}

/// Whether the field says that the connection is to be closed.
fn is_close_at(buf: &[u8], field: &HeaderSpan) -> bool
    requires { IsHeaderWithin (length buf.now) field.now }
    ensures { let f = header_bytes buf.now field.now in
        result ≡ (is_word connection f.0 && is_word close f.1) }
{
    is_word_at(buf, field.name, b"connection".as_slice())
        && is_word_at(buf, field.value, b"close".as_slice())
}

/// Whether a field says that the connection is to be closed.
fn has_close(buf: &[u8], fields: &[HeaderSpan]) -> bool
    requires { All (IsHeaderWithin (length buf.now)) fields.now }
    ensures { result ≡ list_any (λ h. is_word connection (header_bytes buf.now h).0
        && is_word close (header_bytes buf.now h).1) fields.now }
{
    fields.iter().any(|field| is_close_at(buf, field))
}

/// The number that at most 18 digits stand for.
fn value_of(digits: &[u8]) -> u64
    requires digits { list_all is_ascii_digit digits.now ≡ true }
    requires short { length digits.now ≤ 18 }
    ensures { result ≡ value_from 0 digits.now }
{
    let mut value: u64 = 0;
    for digit in digits {
        value = value * 10 + (*digit - b'0') as u64;
    }
    value
}

/// Whether all are digits.
fn all_digits(value: &[u8]) -> bool
    ensures { result ≡ list_all is_ascii_digit value.now }
{
    value.iter().all(|b| b.is_ascii_digit())
}

/// Whether the value is a length: 1 to 18 digits.
fn is_length(value: &[u8]) -> bool
    ensures { result ≡ is_length value.now }
{
    if value.len() == 0 {
        return false;
    }
    if value.len() > LENGTH_DIGITS {
        return false;
    }
    all_digits(value)
}

/// The length that one value says.
fn length_from(value: &[u8]) -> ContentLength
    ensures { result ≡ length_from value.now }
{
    if is_length(value) {
        return ContentLength::Given(value_of(value));
    }
    ContentLength::Invalid
}

/// What is said of the length with one more value. Two lengths are wrong, also where they are the same.
fn next_length(said: ContentLength, value: &[u8]) -> ContentLength
    ensures { result ≡ next_length said value.now }
{
    match said {
        ContentLength::Absent => length_from(value),
        _ => ContentLength::Invalid,
    }
}

/// What is said of the length with one more field.
fn length_with(buf: &[u8], said: ContentLength, field: &HeaderSpan) -> ContentLength
    requires { IsHeaderWithin (length buf.now) field.now }
    ensures { result ≡ length_with said (header_bytes buf.now field.now) }
{
    if is_word_at(buf, field.name, b"content-length".as_slice()) {
        return next_length(said, field.value.of(buf));
    }
    said
}

/// What the fields say of the length.
pub fn length_in(buf: &[u8], fields: &[HeaderSpan]) -> ContentLength
    requires { All (IsHeaderWithin (length buf.now)) fields.now }
    ensures { result ≡ length_said (values_of content_length (map (header_bytes buf.now) fields.now)) }
{
    let mut said = ContentLength::Absent;
    for field in fields {
        said = length_with(buf, said, field);
    }
    said
}

/// The framing, by what the head says of the length, whether it has a transfer coding, and whether it is
/// a `POST`.
fn framing_for(said: ContentLength, coded: bool, post: bool) -> Framing
    ensures { result ≡ framing_for said coded post }
{
    match said {
        ContentLength::Invalid => Framing::BadLength,
        ContentLength::Absent => {
            if coded || post {
                Framing::NoLength
            } else {
                Framing::Sized(0)
            }
        }
        ContentLength::Given(len) => {
            if coded {
                Framing::NoLength
            } else if len > BODY_LIMIT {
                Framing::TooLong(len)
            } else {
                Framing::Sized(len)
            }
        }
    }
}

/// Whether the body has a transfer coding (RFC 9112, section 6.1).
pub fn is_coded(buf: &[u8], fields: &[HeaderSpan]) -> bool
    requires { All (IsHeaderWithin (length buf.now)) fields.now }
    ensures { result ≡ list_any (λ h. is_word transfer_encoding (header_bytes buf.now h).0) fields.now }
{
    has_field(buf, fields, b"transfer-encoding".as_slice())
}

/// Whether the method is `POST`. Methods are compared with regard to case (RFC 9110, section 9.1).
fn is_post_at(buf: &[u8], method: Span) -> bool
    requires { IsWithin (length buf.now) method }
    ensures { result ≡ is_post (span_bytes buf.now method) }
{
    method.of(buf) == b"POST".as_slice()
}

/// How the message body is framed behind a head with these parts.
pub fn find_framing(buf: &[u8], method: Span, fields: &[HeaderSpan]) -> Framing
    requires method { IsWithin (length buf.now) method }
    requires fields { All (IsHeaderWithin (length buf.now)) fields.now }
    ensures { result ≡ framing_by (span_bytes buf.now method) (map (header_bytes buf.now) fields.now) }
{
    let said = length_in(buf, fields);
    let coded = is_coded(buf, fields);
    let post = is_post_at(buf, method);
    framing_for(said, coded, post)
}

/// Whether the connection does not persist behind the response (RFC 9112, section 9.3): the request is of
/// version 1.0, or a field `connection` is `close`.
pub fn closes(buf: &[u8], minor: u8, fields: &[HeaderSpan]) -> bool
    requires { All (IsHeaderWithin (length buf.now)) fields.now }
    ensures { result ≡ closes_by minor (map (header_bytes buf.now) fields.now) }
{
    let says = has_close(buf, fields);
    minor == 0 || says
}
