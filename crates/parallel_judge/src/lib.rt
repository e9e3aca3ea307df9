//! The judging of a whole contest: its problems and submissions enter a farm, hosts work off the tasks, and the verdicts
//! are what running every test in rank order on one thread gives.
//!
//! Where things stand: `judging.rt` is `judge_all`; `entering.rt` enters a contest, asks for what waits, and enters
//! its hosts, `hosts.rt` runs the host threads, by the names of `names.rt`, `noted.rt` is the farm and its journal
//! once the board is closed, `finishing.rt` works off the open tasks as one host, `verdicts.rt` reads the table.
//! `specs/Table.antt` is what the table says and `Journal.antt` what the journal; `proofs/HostEvents.antt` and
//! `Deaths.antt` say what hosts do to a contest, `Beside.antt` and `Whole.antt` what is known of the history,
//! `Turns.antt` what a claim and its result do, `NoneOpen.antt` and `Shown.antt` why everything is final once nothing is
//! open.
#![tactic(auto)]

mod entering;
mod finishing;
mod hosts;
mod judging;
mod names;
mod noted;
mod verdicts;

pub use entering::{enter_problems, enter_submissions};
pub use judging::{Outcome, judge_all};
