//! The audit log: who did what, in entries that are chained by their digests. Each digest, a SHA-256 of
//! FIPS 180-4, covers all that stands before it.
//!
//! Where things stand: `log.rt` has the calls, `chain.rt` the digests, `checking.rt` finds the first entry that was
//! changed.
#![tactic(auto)]

mod chain;
mod checking;
mod log;

pub use checking::check;
pub use log::{Audit, Entry};
