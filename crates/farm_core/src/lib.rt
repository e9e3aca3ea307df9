//! The farm: problems, submissions, their judgings and rejudgings, the audit log, and the answer to each
//! event.
//!
//! Where things stand: `farm.rt` is `Farm`: a contest and an audit log, the answer to each event, and the one path
//! of the jury's events (refused, or the entry is made ready, the contest changes, the entry is added).
//! `contest.rt` is `ContestState`, all but the log; `contest/` has its events by subject: `problems.rt`, `hosts.rt`,
//! `submissions.rt`, `judged.rt` (those that the judge answers), `asking.rt`, `rejudgings.rt`, `verifying.rt`,
//! `reading.rt` (show and board), and `jury.rt`, which finds the refusal and the change of an event of the jury.
//! Beside them: `entries.rt` (entries of the log), `names.rt` (`Names`, the names of problems or of hosts in order,
//! found by `indexmap`), `places.rt` (what stands where), `modes.rt` (how problems are judged), `lists.rt` (loops
//! over submissions and members), `replies.rt`. `proofs/Aside.antt` says that no event but `audit` looks at the
//! log. `docs/PROVING.md` adds an event file by file.
#![tactic(auto)]

mod contest;
mod entries;
mod farm;
mod lists;
mod modes;
mod names;
mod places;
mod replies;

pub use farm::Farm;
pub use modes::is_asked_for;
