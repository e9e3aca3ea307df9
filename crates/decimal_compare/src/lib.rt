//! Exact decimals: what a word is as a number, and whether two numbers agree within a tolerance.
//!
//! Numbers are in units of 10^-12. No call takes memory.
//!
//! Where things stand: `numeral.rt` cuts a word into its `parts.rt`, `size.rt` adds up digits, `token.rt` and
//! `amount.rt` are the two readers, `tolerance.rt` has the two inequalities.
#![tactic(auto)]

mod amount;
mod numeral;
mod parts;
mod size;
mod token;
mod tolerance;

pub use amount::{BadTolerance, Part, read_amount};
pub use token::{Token, read_decimal};
pub use tolerance::{Tolerance, within};
