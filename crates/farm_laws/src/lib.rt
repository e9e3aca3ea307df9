//! The laws of runs: what holds of every list of events from the empty farm.
//!
//! Each function has an empty body, and its contract is the law.
//!
//! Where things stand: `specs/Laws.antt` has the laws; `proofs/Steps.antt` what one event does to rows,
//! `Handing.antt` and `Quiet.antt` what is handed out, `Moves.antt`, `Cancels.antt`, `Members.antt` and
//! `Applying.antt` what rejudgings do.
#![tactic(auto)]

mod laws;

pub use laws::{keeps_promise, output_keeps_promise, step_keeps_promise};
