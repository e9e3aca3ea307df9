//! Tests of the crates of the core, and of those that it stands on, over what these offer to others.
//! How rows of tests are written stands in `docs/PROVING.md`.
#![tactic(auto)]

#[cfg(test)]
mod audit_log_tests;
#[cfg(test)]
mod farm_board_tests;
#[cfg(test)]
mod farm_core_tests;
#[cfg(test)]
mod farm_kinds_tests;
#[cfg(test)]
mod judgehost_tests;
#[cfg(test)]
mod judging_core_tests;
#[cfg(test)]
mod lazy_stop_tests;
#[cfg(test)]
mod lease_book_tests;
#[cfg(test)]
mod lease_tree_tests;
#[cfg(test)]
mod public_board_tests;
pub mod recording;
#[cfg(test)]
mod rejudge_book_tests;
#[cfg(test)]
mod rows;
#[cfg(test)]
mod task_tree_tests;
