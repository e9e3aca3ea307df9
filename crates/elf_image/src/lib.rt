//! ELF32 executables for RISC-V: where the program begins, and which bytes of the file stand where in memory. After
//! the System V ABI, "Object Files" and "Program Loading and Dynamic Linking". No call takes memory.
//!
//! Where things stand: `elf.rt` has `read_elf`, `fields.rt` the header's fields, `segment.rt` the program headers,
//! `fault.rt` why a file is no executable.
#![tactic(auto)]

mod elf;
mod fault;
mod fields;
mod laws;
mod segment;
mod worked;

pub use elf::{Elf, read_elf};
pub use fault::ElfFault;
pub use laws::bytes_stand_at_their_addresses;
pub use segment::Segment;
pub use worked::{worked_faults, worked_image};
