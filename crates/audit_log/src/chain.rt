ghost use Rattle.std.specs.Prelude.{◌≡◌};
ghost use Rattle.farm_model.specs.Chain.{first_digest, digest_after};

use sha2::{Digest, Sha256};

/// The digest before the first text.
pub fn first_digest() -> [u8; 32]
    ensures { result ≡ first_digest }
{
    Sha256::digest(b"")
}

/// The digest of the text behind this digest.
pub fn digest_after(before: &[u8; 32], text: &[u8]) -> [u8; 32]
    ensures { result ≡ digest_after before.now text.now }
{
    let mut hasher = Sha256::new();
    hasher.update(before.as_slice());
    hasher.update(text);
    hasher.finalize()
}
