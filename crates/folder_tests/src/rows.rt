//! What rows of tests are compared by.
use std::process::Abort;

/// Compares a text with the one that is expected.
pub(crate) fn check_text(rt: &impl Abort, shown: &str, expected: &str, name: &str) {
    assert_eq!(rt; shown, expected, "{name}");
}
