/// Why an instruction can't be carried out.
#[derive(Clone, Copy, Debug, PartialEq, Eq)]
pub enum Trap {
    /// The word is no instruction of RV32IM.
    Illegal,
    /// A jump or a taken branch leads to an address that is no multiple of 4.
    Jump,
    /// A load or a store of 2 or 4 bytes is at an address that is no multiple of their number.
    Misaligned,
    /// The instruction is EBREAK.
    Break,
    /// The number of a system call is none of 63, 64 and 93.
    Call,
    /// The bytes of a read or write call go past the last address.
    Range,
}

/// How a run ends.
#[derive(Clone, Copy, Debug, PartialEq, Eq)]
pub enum Ending {
    /// The program called exit with this code.
    Exit(u32),
    Trap(Trap),
    /// The next instruction would cost more than the limit.
    Time,
    /// The next page would be one more than the limit.
    Memory,
    /// The next bytes would make the output longer than the limit.
    Output,
}
