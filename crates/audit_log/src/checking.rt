ghost use Rattle.std.specs.Prelude.{◌≡◌, Some, None, OnOk, IfErr};
ghost use Rattle.audit_log.specs.Entries.{first_broken};

use crate::chain::{digest_after, first_digest};
use crate::log::Entry;

/// Computes the chain of the entries' texts anew, and answers the first place, from 0, whose kept digest
/// is another.
pub fn check(entries: &[Entry]) -> Result<(), usize>
    ensures whole { OnOk result (first_broken entries.now ≡ None) }
    ensures broken { IfErr result (λ at. first_broken entries.now ≡ Some at) }
{
    let mut digest = first_digest();
    for (at, entry) in entries.iter().enumerate() {
        digest = digest_after(&digest, entry.text.as_slice());
        if entry.digest.as_slice() != digest.as_slice() {
            return Err(at);
        }
    }
    Ok(())
}
