/// How a session over the lines of a script ends.
#[derive(Clone, Copy, Debug, PartialEq, Eq)]
pub enum ScriptEnd {
    /// The input was read to its end, and a reply to each line was written.
    Done,
    /// The input failed.
    ReadFault,
    /// The output failed.
    WriteFault,
    /// As many bytes were taken from the input as are taken at most, 2^40, and its end was not among them.
    InputLimit,
    /// No memory was left.
    NoMemory,
}

/// How a session ends that stores its events.
#[derive(Clone, Copy, Debug, PartialEq, Eq)]
pub enum StoredEnd {
    /// The input was read to its end, and a reply to each line was written.
    Done,
    /// The input failed.
    ReadFault,
    /// The output failed.
    WriteFault,
    /// As many bytes were taken from the input as are taken at most, 2^40, and its end was not among them.
    InputLimit,
    /// The disk of the store failed. Replies to events that may not be stored were not written.
    StoreFault,
    /// The record of an event would end at the offset `end`, past the limit of the store.
    StoreFull { end: u64 },
    /// No memory was left.
    NoMemory,
}
