use farm_kinds::How;

/// Why a rejudging is not prepared, or why no room is made for it.
#[derive(Clone, Copy, Debug, PartialEq, Eq)]
pub enum BookFault {
    /// The list is empty.
    EmptySet,
    /// The submission stood earlier in the list. It is the first of the list that did.
    Twice { submission: u32 },
    /// The submission is in `rejudging`, which is open. It is the first of the list that is in an open one.
    Busy { submission: u32, rejudging: u32 },
    /// No memory was left.
    NoMemory,
}

/// Why a rejudging is not closed.
#[derive(Clone, Copy, Debug, PartialEq, Eq)]
pub enum CloseFault {
    /// No rejudging has the number.
    NoRejudging,
    /// The rejudging is closed: `how` says in which way.
    Closed { how: How },
}
