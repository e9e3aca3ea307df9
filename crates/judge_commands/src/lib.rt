//! The commands that judge a contest by host threads: `farm judge`, and `farm make`.
//!
//! Where things stand: `judging.rt` is the command `judge` with the lines of `journal.rt`, and says why a folder is no contest;
//! `making.rt` is the command `make` with `summary.rt` what it writes; `specs/Judged.antt` and `Making.antt` say how each command
//! ends.
#![tactic(auto)]

mod journal;
mod judging;
mod making;
mod summary;

pub use judging::{judge, refuse_contest};
pub use making::make;
