//! Tests of the crates that read folders and make contests, and what tests of contests are made with.
//! How rows of tests are written stands in `docs/PROVING.md`.
#![tactic(auto)]

#[cfg(test)]
mod contest_folder_tests;
#[cfg(test)]
mod contest_notes_tests;
#[cfg(test)]
mod farm_tree_tests;
pub mod files;
#[cfg(test)]
mod package_folder_tests;
pub mod recorder;
#[cfg(test)]
mod rows;
#[cfg(test)]
mod work_maker_tests;
