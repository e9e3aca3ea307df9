//! Lazy stopping: a row of results, whether its verdict can still change, and which of its empty
//! cells can change it.
//!
//! Lazy evaluation is DOMjudge's (its manual, `lazy_eval_results`). The exact place where judging stops,
//! and that the earliest rank decides on equal priority, are this project's own profile.
//!
//! A row is seen as a rule and a list of cells. Its verdict is settled once every way to fill its
//! empty cells has that verdict. [`Row`] never forms one of these ways: it keeps its best filled cell,
//! its first empty cell and three kinds of its rule, and answers in constant time.
//!
//! Where things stand: `row.rt` is `Row` and its closed form, `cells.rt` its cells of a byte each, `extremes.rt`
//! the kinds of a rule that decide, `laws.rt` the laws of lazy stopping as contracts of empty functions;
//! `matters_before` says up to where judging goes on.
#![tactic(auto)]

mod cells;
mod extremes;
mod laws;
mod row;

pub use laws::{
    completions_are_all, filling_keeps_final, filling_keeps_settled, final_iff_settled,
    final_is_the_full_answer, full_pending_iff_empty, matters_iff_verdicts_differ,
    pending_iff_matters, remapped_is_possible, settled_is_every_completion,
    settled_is_the_full_verdict, unsettled_iff_matters, worked_rows,
};
pub use row::{Put, Row};
