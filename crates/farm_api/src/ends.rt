/// How a connection ended.
#[derive(Clone, Copy, Debug, PartialEq, Eq)]
pub enum ConnHow {
    /// Its bytes ended between requests.
    End,
    /// The last request asked to close, or was of version 1.0; or the server asked to close behind it.
    Closed,
    /// Its bytes ended within a request.
    Cut,
    /// A request was refused before it was known, and its response was put.
    BadRequest,
    /// Reading failed.
    ReadFault,
    /// Writing failed.
    WriteFault,
    /// [`INPUT_LIMIT`](farm_io::INPUT_LIMIT) bytes were taken, and more were wanted.
    InputLimit,
    /// No memory was left.
    NoMemory,
}

/// How many requests of a connection were answered in full, and how it ended.
#[derive(Clone, Copy, Debug, PartialEq, Eq)]
pub struct ConnEnd {
    pub requests: u64,
    pub how: ConnHow,
}
