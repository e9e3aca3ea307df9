//! The lines of a store as text: a script that leads where the store leads.
//!
//! Where things stand: `listing.rt` is the call, `faults.rt` why it fails, `worked.rt` has examples; `specs/Listing.antt` says
//! what is written.
#![tactic(auto)]

mod faults;
mod listing;
mod worked;

pub use faults::ListFault;
pub use listing::list_store;
pub use worked::{a_store_as_text, what_stands_behind_the_records};
