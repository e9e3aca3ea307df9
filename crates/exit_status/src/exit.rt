ghost use Rattle.std.specs.Prelude.{◌≡◌};
ghost use Rattle.exit_status.specs.Statuses.{status_of};

use crate::flaw::StoreFlaw;
use remote_host::Wrong;

/// How the program ends.
#[derive(Clone, Copy, Debug, PartialEq, Eq)]
pub enum Exit {
    /// The command did all that it is to do.
    Done,
    /// The words are not a command line.
    Usage,
    /// The settings' file gives no settings; one line says why.
    BadContest,
    /// The input failed.
    ReadFault,
    /// The output failed.
    WriteFault,
    /// No memory was left.
    Memory,
    /// The tree of files failed.
    TreeFault,
    /// The door to which connections come failed.
    DoorFault,
    /// As many bytes were taken from the input as are taken at most, 2^40, and its end was not among them.
    InputLimit,
    /// The link to a server failed, or the connection that it made.
    LinkFault,
    /// The server gave the answer `wrong`, which is none that it may give.
    BadAnswer { wrong: Wrong },
    /// The disk of a store failed.
    StoreFault,
    /// The file is no store of this farm, for the reason `flaw`, and one line says so.
    BadStore { flaw: StoreFlaw },
    /// The record of an event would end at the offset `end`, which is more than a store holds.
    StoreFull { end: u64 },
}

impl Exit {
    /// The program's exit status.
    pub fn status(self) -> u8
        ensures { result ≡ status_of self }
    {
        match self {
            Exit::Done => 0,
            Exit::Usage => 2,
            Exit::BadContest => 3,
            Exit::ReadFault => 4,
            Exit::WriteFault => 5,
            Exit::Memory => 6,
            Exit::TreeFault => 7,
            Exit::DoorFault => 8,
            Exit::InputLimit => 9,
            Exit::LinkFault => 10,
            Exit::BadAnswer { .. } => 11,
            Exit::StoreFault => 12,
            Exit::BadStore { .. } => 13,
            Exit::StoreFull { .. } => 14,
        }
    }
}
