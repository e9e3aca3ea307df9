/// Why a reader gives no more responses.
#[derive(Clone, Copy, Debug, PartialEq, Eq)]
pub enum AnswerEnding {
    /// The bytes ended before a response did.
    Cut,
    /// No head of at most 64 fields and [`HEAD_LIMIT`](crate::HEAD_LIMIT) bytes can come of the bytes, or the head does
    /// not say a length once, in 1 to 18 digits, or it has a transfer coding.
    BadHead,
    /// The head says a length over [`ANSWER_LIMIT`](crate::ANSWER_LIMIT).
    TooLong { len: u64 },
    /// The code of the response is none that is looked at.
    Status { code: u16 },
    /// The source failed.
    ReadFault,
    /// No memory was left.
    NoMemory,
}
