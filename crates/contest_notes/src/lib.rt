//! What a person is told of a contest's folder: where it is to be mended, where it is no contest; and what of it is skipped or
//! can be no program, where it is one. Nothing hangs on what is told.
//!
//! Where things stand: `telling.rt` reads a contest and tells of it. `finding.rt` finds the notes (`notes.rt`), those on submissions
//! in `programs.rt`, and `texts.rt` is what a person is told of each. `reason.rt` has the reason of each fault; `mistakes.rt` says
//! what is wrong with a line of `submissions.txt`, and `lines.rt` finds the line.
#![tactic(auto)]

mod finding;
mod lines;
mod mistakes;
mod notes;
mod programs;
mod reason;
mod telling;
mod texts;
mod worked;

pub use finding::contest_notes;
pub use notes::ContestNote;
pub use reason::settings_reason;
pub use telling::read_told_contest;
pub use worked::{worked_mistakes, worked_notes};
