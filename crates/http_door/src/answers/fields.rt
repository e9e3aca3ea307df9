ghost use Rattle.std.specs.Prelude.{◌≡◌, length, map};
ghost use Rattle.std.specs.List.{All};
ghost use Rattle.httparse.specs.Spans.{IsHeaderWithin, header_bytes};
ghost use Rattle.http_door.specs.AnswerFields.{is_known, framing_for, framing_by};

use crate::fields::{ContentLength, is_coded, length_in};
use httparse::spans::HeaderSpan;

/// How the body of a response is framed, by its head (RFC 9112, section 6.3).
#[derive(Clone, Copy, Debug, PartialEq, Eq)]
pub enum AnswerFraming {
    /// It has so many bytes, at most [`ANSWER_LIMIT`].
    Sized(u64),
    /// The head says no length, or a wrong one, or has a transfer coding.
    BadLength,
    /// The length, in bytes, is over [`ANSWER_LIMIT`].
    TooLong(u64),
    /// The code is none of 200, 404 and 409.
    Status(u16),
}

/// The most bytes of a body: 96 MiB.
pub const ANSWER_LIMIT: u64 = 100_663_296;

/// Whether the code is one that is looked at.
fn is_known(code: u16) -> bool
    ensures { result ≡ is_known code }
{
    code == 200 || code == 404 || code == 409
}

/// The framing, by what the head says of the length, whether it has a transfer coding, and its code.
fn framing_for(said: ContentLength, coded: bool, code: u16) -> AnswerFraming
    ensures { result ≡ framing_for said coded code }
{
    match said {
        ContentLength::Invalid => AnswerFraming::BadLength,
        ContentLength::Absent => AnswerFraming::BadLength,
        ContentLength::Given(len) => {
            if coded {
                AnswerFraming::BadLength
            } else if len > ANSWER_LIMIT {
                AnswerFraming::TooLong(len)
            } else if is_known(code) {
                AnswerFraming::Sized(len)
            } else {
                AnswerFraming::Status(code)
            }
        }
    }
}

/// How the body is framed behind a head with this code and these fields.
pub fn find_framing(buf: &[u8], code: u16, fields: &[HeaderSpan]) -> AnswerFraming
    requires { All (IsHeaderWithin (length buf.now)) fields.now }
    ensures { result ≡ framing_by code (map (header_bytes buf.now) fields.now) }
{
    let said = length_in(buf, fields);
    let coded = is_coded(buf, fields);
    framing_for(said, coded, code)
}
