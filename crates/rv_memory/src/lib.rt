//! The memory of a metered RV32IM machine: bytes in pages of 4,096, which are made when they are touched, up to a
//! limit of pages.
//!
//! Where things stand: `memory.rt` has the calls, `page.rt` bytes in a page, `index.rt` where a page is,
//! `recent.rt` the pages that were used of late.
#![tactic(auto)]

mod index;
mod memory;
mod page;
mod recent;

pub use memory::{MemFault, Memory};
