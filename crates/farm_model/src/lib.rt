//! The definitions of the farm that several crates cite: rows and what is reported of them, the
//! farm's state and its step for each event, runs of events, lines, texts, and the script's output.
//!
//! `specs/` holds them. The functions here compute worked rows of the definitions: each has an empty
//! body, and a contract that the checker computes.
#![tactic(auto)]

mod leases;
mod members;
mod numbered;
mod records;
mod rejudgings;
mod worked;

pub use leases::worked_leases;
pub use members::Members;
pub use numbered::item_of;
pub use records::{
    Host, JudgingDetails, Lease, Member, Problem, RejudgeState, Rejudging, Submission,
};
pub use rejudgings::{
    apply_is_one_change, audit_chain, audit_texts, cancel_changes_nothing, empty_audit,
    lines_of_the_jury, refusals_of_rejudgings, rejudging_of_a_broken_image,
    rejudging_of_a_new_version, rows_of_a_matrix, twice_and_busy, verification,
    verification_of_a_rejudging,
};
pub use worked::{
    answers_to_rows, asked_judgings, batch_of_one_judging, batches, broken_image,
    cells_that_matter, classes, death_and_return, empty_input, equal_priorities,
    equal_priorities_later, event_lines, full_judging, greatest_priority_decides,
    late_repeated_different, lines_and_comments, lines_of_hosts, one_before_the_end,
    one_possible_kind, problems_with_modes, refusals, refusals_of_hosts, repeated_different,
    replaced_problem, smallest_path, tie_with_an_earlier_rank, too_long, unique_greatest_priority,
    words_and_numbers,
};
