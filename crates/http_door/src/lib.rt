//! The bytes of a connection as HTTP/1.1 requests and as responses, and the bytes of responses (RFC 9112).
//!
//! An [`HttpReader`] cuts what a source gives into whole requests: a head of at most [`HEAD_LIMIT`] bytes
//! and 64 fields, by the grammar of the crate `httparse`, and a body of the length that the head says. What
//! cannot be a request is a [`Refusal`], which has a fixed response. [`write_content`] puts a response, whose body is JSON or a page. An
//! [`AnswerReader`] cuts what comes back on a connection into responses.
//!
//! The cuts are defined over whole lists of bytes in `specs/Requests.antt` and `specs/Answers.antt`; their laws are
//! the contracts of the functions of `laws.rt` and `answers/laws.rt`, which do nothing.
//!
//! Where things stand: `reader.rt` has `HttpReader`, over `finding.rt` (when a head is looked for, and how a body
//! is waited for), `heads.rt` (a head, by `httparse`), `fields.rt` (what its fields say of the body and the
//! connection) and `window.rt` (the bytes that were taken); `responses.rt` is `write_content`, and what makes the bytes
//! of a response and puts them, `refusals.rt` the fixed responses, `ending.rt` why a reader gives no more. `specs/Requests.antt` is the cut of bytes into
//! requests, `laws.rt` its laws, `worked.rt` the definitions at examples. The folder `answers` has the same for
//! responses: its `AnswerReader` shares the window, the fields, when bytes are parsed and how a body is waited for.
#![tactic(auto)]

mod answers;
mod ending;
mod fields;
mod finding;
mod heads;
mod laws;
mod reader;
mod refusals;
mod responses;
mod window;
mod worked;

pub use answers::{
    ANSWER_LIMIT, AnswerEnding, AnswerFraming, AnswerReader, answer_is_one, answer_stays,
    answers_are_one, answers_end_apart, fault_stays,
};
pub use ending::Ending;
pub use fields::{BODY_LIMIT, ContentLength, Framing};
pub use finding::HEAD_LIMIT;
pub use laws::{
    cut_is_one, ends_are_apart, nothing_is_no_refusal, refusal_stays, request_is_one, request_stays,
};
pub use reader::{Head, HttpReader};
pub use refusals::Refusal;
pub use responses::{
    Content, ResponseFault, put_response, response_bytes, write_content, write_response,
};
pub use worked::{worked_fields, worked_lengths, worked_responses};
