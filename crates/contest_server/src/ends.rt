/// How the serving of a contest ended.
#[derive(Clone, Copy, Debug, PartialEq, Eq)]
pub enum ServeEnd {
    /// As many connections came as were asked for, or no connection was left to come.
    Done,
    /// The door failed to let a connection in.
    DoorFault,
    /// Writing failed.
    WriteFault,
    /// No memory was left, or too few calls of the board for one more connection.
    NoMemory,
}
