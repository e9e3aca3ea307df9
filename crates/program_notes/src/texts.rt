//! What a person is told of a file that is no program.
use crate::faults::ProgramFault;
use elf_image::ElfFault;
use std::alloc::{AllocError, Global};

/// What is told of the fault of these bytes, as the words behind the file's name. Of a file that is too large they need not be
/// all.
pub fn program_fault_text(
    alloc: Global,
    fault: ProgramFault,
    bytes: &[u8],
) -> Result<String, AllocError> {
    match fault {
        ProgramFault::Size(len) => format!(in alloc;
            "has {len} bytes, and a program has at most 1048576"
        ),
        ProgramFault::Elf(fault) => String::from_str(alloc, elf_text(bytes, fault)),
        ProgramFault::Empty => String::from_str(alloc, "is empty"),
        ProgramFault::Source => String::from_str(alloc, "is text, and nothing is compiled here"),
        ProgramFault::Length(len) => format!(in alloc;
            "is no ELF file, and its {len} bytes are no multiple of 4 as those of a raw image"
        ),
    }
}

/// What is told of an ELF file.
fn elf_text(bytes: &[u8], fault: ElfFault) -> &'static str {
    match fault {
        ElfFault::NotElf => "is an ELF file that is cut off in its header",
        ElfFault::WrongClass { .. } => class_text(bytes),
        ElfFault::WrongOrder { .. } => "is an ELF file for a big-endian machine",
        ElfFault::WrongKind { kind } => kind_text(kind),
        ElfFault::WrongMachine { machine } => machine_text(machine),
        ElfFault::BadEntrySize { .. } =>
            "is an ELF file whose program headers have another size than 32",
        ElfFault::TooMany { .. } => "is an ELF file with more than 16 program headers",
        ElfFault::Truncated { .. } => "is an ELF file that ends before its program headers do",
        ElfFault::PastFile { .. } => "is an ELF file that ends before its segments do",
        ElfFault::FileOverSize { .. } => {
            "is an ELF file with a segment that has more bytes in the file than in memory"
        }
        ElfFault::PastMemory { .. } => "is an ELF file with a segment that ends past 2^32",
        ElfFault::Overlap { .. } => "is an ELF file whose segments overlap in memory",
        ElfFault::NoSegment => "is an ELF file without a segment that is loaded",
        ElfFault::BadStart { .. } =>
            "is an ELF file that begins at an address which is no multiple of 4",
    }
}

/// What is told of an ELF file of another class: for a machine of 64 bits.
fn class_text(bytes: &[u8]) -> &'static str {
    match bytes.get(18) {
        Some(62) => "is a 64-bit ELF file for x86-64, and no 32-bit one for RISC-V",
        Some(183) => "is a 64-bit ELF file for ARM, and no 32-bit one for RISC-V",
        Some(243) => "is a 64-bit ELF file for RISC-V, and no 32-bit one",
        _ => "is a 64-bit ELF file, and no 32-bit one for RISC-V",
    }
}

/// What is told of an ELF file of another kind (System V ABI, "ELF Header", `e_type`).
fn kind_text(kind: u32) -> &'static str {
    match kind {
        1 => "is an ELF object file that was not linked",
        3 =>
            "is an ELF shared library or position-independent executable (link it with -static -no-pie)",
        _ => "is an ELF file that is no executable",
    }
}

/// What is told of an ELF file for another machine (System V ABI, "ELF Header", `e_machine`).
fn machine_text(machine: u32) -> &'static str {
    match machine {
        3 => "is an ELF file for x86, and not for RISC-V",
        40 => "is an ELF file for ARM, and not for RISC-V",
        62 => "is an ELF file for x86-64, and not for RISC-V",
        _ => "is an ELF file for another machine than RISC-V",
    }
}
