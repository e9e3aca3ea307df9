//! Trees of files: what a program reads of a folder.
//!
//! A [`Tree`] gives the bytes of the file at a path and the entries of a folder, and counts its faults. Trees in memory serve programs
//! without an outside and tests, and [`DiskTree`] stands over the files of `std`.
//!
//! Where things stand: `reads.rt` the trait; `entries.rt` entries and lists of files; `listing.rt` what a folder of
//! such files holds; `memory.rt` and `disk.rt` the trees.
#![tactic(auto)]

mod disk;
mod entries;
mod listing;
mod memory;
mod reads;
mod worked;

pub use disk::{DiskTree, read_whole};
pub use entries::{Entries, Entry, TreeFiles};
pub use listing::below;
pub use memory::{MemoryTree, ReliableTree};
pub use reads::{FILE_LIMIT, PATH_LIMIT, Tree, TreeErr, TreeFile};
pub use worked::{worked_folders, worked_listing};
