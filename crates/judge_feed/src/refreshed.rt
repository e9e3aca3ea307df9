use public_board::Note;

/// What came of a refresh.
#[derive(Clone, Copy, Debug)]
pub enum Refreshed {
    /// What the public sees is published; the note tells of the last version.
    Done(Note),
    /// No memory was left. What was published before stays.
    NoMemory,
    /// The feed's pass has made all its calls. What was published before stays.
    Spent,
}
