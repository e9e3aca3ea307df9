/// Why a reader gives no more requests.
#[derive(Clone, Copy, Debug, PartialEq, Eq)]
pub enum Ending {
    /// The bytes ended between requests.
    End,
    /// The bytes ended within a request.
    Cut,
    /// No head of at most 64 fields can come of the bytes, or the head has more than one `content-length`
    /// or one that is not 1 to 18 digits.
    BadHead,
    /// `len` bytes, [`HEAD_LIMIT`](crate::HEAD_LIMIT), hold no whole head.
    HeadTooLong { len: u64 },
    /// The head says a body of `len` bytes, over [`BODY_LIMIT`](crate::BODY_LIMIT).
    BodyTooLong { len: u64 },
    /// A `POST` says no length, or a request has a field `transfer-encoding`.
    NoLength,
    /// The source failed. What it gave behind the last request is in no request.
    ReadFault,
    /// [`INPUT_LIMIT`](farm_io::INPUT_LIMIT) bytes were taken, and more were wanted.
    InputLimit,
    /// No memory was left for the request.
    NoMemory,
}
