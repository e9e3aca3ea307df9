//! A file of records on a disk: each record is on the disk before it is acknowledged.
//!
//! Where things stand: `disk.rt` the trait, `memory.rt` and `file.rt` the disks, `durable.rt` one write and its
//! sync, `records.rt` records, which `ahead.rt` reads in few calls; `specs/Model.antt` is what a crash may leave, and
//! `Held.antt` what a file holds. `proofs/Moments.antt` puts moments together, `Images.antt` says what is left of one
//! write, `Steps.antt` what the two writes of a batch leave.
#![tactic(auto)]

mod ahead;
mod disk;
mod durable;
mod file;
mod memory;
mod records;

pub use ahead::Ahead;
pub use disk::{Access, Disk, DiskErr};
pub use file::FileDisk;
pub use memory::{Call, MemoryDisk};
pub use records::{ReadFault, append_records, close_records, push_record, read_record};
