//! Tests of stores, over disks in memory.
//! How rows of tests are written stands in `docs/PROVING.md`.
#![tactic(auto)]

#[cfg(test)]
mod crash_tests;
#[cfg(test)]
mod playing;
#[cfg(test)]
mod run_tests;
