//! The lease book: which host holds which task until when.
//!
//! Where things stand: `book.rt` has the calls, over three trees; `held.rt` is the list that contracts see,
//! `change.rt` what becomes of it; `specs/BookLayout.antt` says what the trees have of the leases,
//! `proofs/Index.antt` what follows for a search in one of them, `proofs/Due.antt` which lease is due first,
//! `proofs/Walks.antt` what a walk over part of an order has passed, `proofs/Renewed.antt` what another end
//! changes.
#![tactic(auto)]

mod book;
mod change;
mod held;

pub use book::LeaseBook;
pub use farm_model::Lease;
