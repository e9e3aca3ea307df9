ghost use Rattle.std.specs.Prelude.{◌≡◌};
ghost use Rattle.http_door.specs.Refusals.{refusal_of, refusal_response};

use crate::ending::Ending;

/// What a server refuses before it knows the request. Behind the response the connection ends.
#[derive(Clone, Copy, Debug, PartialEq, Eq)]
pub enum Refusal {
    BadHead,
    HeadTooLong,
    BodyTooLong,
    NoLength,
}

impl Refusal {
    /// The refusal that an ending is, if it is one.
    pub fn of(ending: Ending) -> Option<Refusal>
        ensures { result ≡ refusal_of ending }
    {
        match ending {
            Ending::BadHead => Some(Refusal::BadHead),
            Ending::HeadTooLong { len: _ } => Some(Refusal::HeadTooLong),
            Ending::BodyTooLong { len: _ } => Some(Refusal::BodyTooLong),
            Ending::NoLength => Some(Refusal::NoLength),
            _ => None,
        }
    }

    /// The bytes of its response, whose body is a JSON object. Its status is 400, 431 (RFC 6585, section 5), 413 or 411
    /// (RFC 9110, section 15.5). They stand in the program, so that a refusal wants no memory.
    #[tactic(auto, unfolding(crate::specs::Refusals::refusal_response))]
    pub fn response(self) -> &'static str
        ensures { result.now ≡ refusal_response self }
    {
        match self {
            Refusal::BadHead => concat!(
                "HTTP/1.1 400 Bad Request\r\ncontent-length: 20\r\n",
                "content-type: application/json\r\n\r\n{\"reply\":\"bad-head\"}",
            ),
            Refusal::HeadTooLong => concat!(
                "HTTP/1.1 431 Request Header Fields Too Large\r\ncontent-length: 25\r\n",
                "content-type: application/json\r\n\r\n{\"reply\":\"head-too-long\"}",
            ),
            Refusal::BodyTooLong => concat!(
                "HTTP/1.1 413 Payload Too Large\r\ncontent-length: 25\r\n",
                "content-type: application/json\r\n\r\n{\"reply\":\"body-too-long\"}",
            ),
            Refusal::NoLength => concat!(
                "HTTP/1.1 411 Length Required\r\ncontent-length: 21\r\n",
                "content-type: application/json\r\n\r\n{\"reply\":\"no-length\"}",
            ),
        }
    }
}
