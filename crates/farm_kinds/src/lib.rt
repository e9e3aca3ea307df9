//! The words of the domain: the kinds of results, names, the rule by which results give a verdict,
//! limits of a run, lists, and the events and replies of the farm.
#![tactic(auto)]

mod events;
mod few;
mod kinds;
mod limits;
mod lists;
mod names;
mod outcomes;
mod rules;
mod worked;

pub use events::{Event, LineFault, Reply};
pub use few::Few;
pub use kinds::Kind;
pub use limits::{
    Limits, MAX_BATCH, MAX_HELD, MAX_HOSTS, MAX_JUDGINGS, MAX_PROBLEMS, MAX_REJUDGINGS,
    MAX_SUBMISSIONS, MAX_TESTS, MAX_VERSIONS, raw_image,
};
pub use lists::{Answers, MatrixRows, Modes, Numbers, TableRows, Text};
pub use names::Name;
pub use outcomes::{
    Answer, AskEnd, Claim, Class, Count, Fetched, How, MatrixRow, Mode, NamedMode, NoMemory,
    ProblemMode, Renewed, TableRow, Task, Verdict,
};
pub use rules::{Rule, RuleFault, verdict};
pub use worked::{worked_images, worked_kinds, worked_names, worked_rules, worked_verdicts};
