//! Tests of the commands of the program: scripts, contests that are judged and served, hosts and stores.
//! How rows of tests are written stands in `docs/PROVING.md`.
#![tactic(auto)]

#[cfg(test)]
mod calling;
#[cfg(test)]
mod farm_cli_tests;
pub mod gates;
#[cfg(test)]
mod hosting_tests;
#[cfg(test)]
mod judging_tests;
#[cfg(test)]
mod rejudging_rows;
#[cfg(test)]
mod script_rows;
#[cfg(test)]
mod serving_tests;
#[cfg(test)]
mod storing_tests;
