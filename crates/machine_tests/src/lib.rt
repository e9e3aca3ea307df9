//! Tests of the crates that run a program and compare its output, over what these offer to others.
//! How rows of tests are written stands in `docs/PROVING.md`.
#![tactic(auto)]

#[cfg(test)]
mod case_run_tests;
#[cfg(test)]
mod decimal_compare_tests;
#[cfg(test)]
mod default_validator_tests;
#[cfg(test)]
mod elf_image_tests;
#[cfg(test)]
mod rows;
#[cfg(test)]
mod rv_machine_tests;
#[cfg(test)]
mod rv_memory_tests;
#[cfg(test)]
mod rv_word_tests;
pub mod verdicts;
