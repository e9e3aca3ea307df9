//! Tests of the crates that read and write texts: lines, the words of the command line, settings and JSON.
//! How rows of tests are written stands in `docs/PROVING.md`.
#![tactic(auto)]

#[cfg(test)]
mod command_line_tests;
#[cfg(test)]
mod command_text_tests;
#[cfg(test)]
mod farm_settings_tests;
pub mod names;
#[cfg(test)]
mod problem_settings_tests;
#[cfg(test)]
mod readers;
#[cfg(test)]
mod rows;
#[cfg(test)]
mod wire_json_tests;
pub mod written;
