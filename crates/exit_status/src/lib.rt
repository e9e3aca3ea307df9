//! How the program ends, and the status that says so.
//!
//! Where things stand: `exit.rt` has the ends, `flaw.rt` what is wrong with a store's file, and `specs/Statuses.antt` the status
//! of each end.
#![tactic(auto)]

mod exit;
mod flaw;

pub use exit::Exit;
pub use flaw::StoreFlaw;
