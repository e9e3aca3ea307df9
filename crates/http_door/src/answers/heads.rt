ghost use Rattle.std.specs.Prelude.{◌≡◌, ◌≤◌, ℕ, List, length, drop};
ghost use Rattle.http_door.specs.AnswerHeads.{IsFront};

use super::fields::{AnswerFraming, find_framing};
use crate::heads::FIELD_LIMIT;
use httparse::Status;
use httparse::spans::{EMPTY_HEADER_SPAN, parse_response};

/// What a head says.
#[derive(Clone, Copy)]
pub struct Seen {
    /// How many bytes the head has.
    pub len: usize,
    pub code: u16,
    pub framing: AnswerFraming,
}

/// What bytes begin with.
#[derive(Clone, Copy)]
pub enum Front {
    /// A whole head.
    Head(Seen),
    /// No whole head yet.
    More,
    /// No head, whatever follows.
    Bad,
}

/// Looks at the front of a buffer.
pub fn look_at(buf: &[u8]) -> Front
    ensures { IsFront buf.now result }
{
    let mut spans = [EMPTY_HEADER_SPAN; FIELD_LIMIT];
    match parse_response(buf, &mut spans) {
        Ok(Status::Complete(head)) => {
            let fields = &spans[..head.headers];
            Front::Head(Seen {
                len: head.len,
                code: head.code,
                framing: find_framing(buf, head.code, fields),
            })
        }
        Ok(Status::Partial) => Front::More,
        Err(_) => Front::Bad,
    }
}
