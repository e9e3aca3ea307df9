ghost use Rattle.std.specs.Prelude.{◌≡◌, ◌≤◌, ℕ, List, length, drop};
ghost use Rattle.http_door.specs.Heads.{IsFront};

use crate::fields::{Framing, closes, find_framing};
use httparse::Status;
use httparse::spans::{EMPTY_HEADER_SPAN, Span, parse_request};

/// The most fields of a head.
pub const FIELD_LIMIT: usize = 64;

/// The parts of a head, as places in the buffer.
#[derive(Clone, Copy)]
pub struct Seen {
    /// How many bytes the head has.
    pub len: usize,
    pub method: Span,
    pub target: Span,
    pub framing: Framing,
    /// Whether the connection does not persist behind the response.
    pub close: bool,
}

/// What bytes begin with.
#[derive(Clone, Copy)]
pub enum Front {
    /// A whole head.
    Head(Seen),
    /// No whole head yet.
    More,
    /// No head, whatever follows.
    Bad,
}

/// Looks at the front of a buffer.
pub fn look_at(buf: &[u8]) -> Front
    ensures { IsFront buf.now result }
{
    let mut spans = [EMPTY_HEADER_SPAN; FIELD_LIMIT];
    match parse_request(buf, &mut spans) {
        Ok(Status::Complete(head)) => {
            let fields = &spans[..head.headers];
            Front::Head(Seen {
                len: head.len,
                method: head.method,
                target: head.path,
                framing: find_framing(buf, head.method, fields),
                close: closes(buf, head.version, fields),
            })
        }
        Ok(Status::Partial) => Front::More,
        Err(_) => Front::Bad,
    }
}
