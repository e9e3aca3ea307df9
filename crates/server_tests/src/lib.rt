//! Tests of streams, of doors and of the server: the crates that take and answer connections.
//! How rows of tests are written stands in `docs/PROVING.md`.
#![tactic(auto)]

#[cfg(test)]
mod board_tests;
pub mod computed;
#[cfg(test)]
mod contest_server_tests;
#[cfg(test)]
mod door_tests;
#[cfg(test)]
mod farm_api_tests;
#[cfg(test)]
mod farm_io_tests;
#[cfg(test)]
mod feed_tests;
#[cfg(test)]
mod http_door_tests;
#[cfg(test)]
mod loopback_tests;
#[cfg(test)]
mod meeting_tests;
#[cfg(test)]
mod serving_tests;
pub mod slow;
#[cfg(test)]
mod talks;
