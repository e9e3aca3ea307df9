/// Why a file is no executable that can be run. Of several faults the first in this order is told.
#[derive(Clone, Copy, Debug, PartialEq, Eq)]
pub enum ElfFault {
    /// The file has under 52 bytes, or does not begin with 7F 45 4C 46.
    NotElf,
    /// `EI_CLASS` is `class`, and not 1, for 32 bits.
    WrongClass { class: u8 },
    /// `EI_DATA` is `order`, and not 1, for numbers with the lowest byte first.
    WrongOrder { order: u8 },
    /// `e_type` is `kind`, and not 2, for an executable.
    WrongKind { kind: u32 },
    /// `e_machine` is `machine`, and not 243, for RISC-V.
    WrongMachine { machine: u32 },
    /// `e_phentsize` is `size`, and not 32.
    BadEntrySize { size: u32 },
    /// `e_phnum` is `count`, over 16.
    TooMany { count: u32 },
    /// The program header table ends past the file, which would need `need` bytes.
    Truncated { need: u64 },
    /// The bytes of the segment end past the file. Segments with a fault are told by `index`, their number from 0 among
    /// the entries of type PT_LOAD.
    PastFile { index: u16 },
    /// The segment has more bytes in the file than in memory.
    FileOverSize { index: u16 },
    /// The memory of the segment ends past 2^32.
    PastMemory { index: u16 },
    /// The memory of the segment meets that of an earlier one.
    Overlap { index: u16 },
    /// No entry of type PT_LOAD has memory.
    NoSegment,
    /// `e_entry` is `entry`, no multiple of 4.
    BadStart { entry: u32 },
}
