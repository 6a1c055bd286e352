//! Digests of pages, by SHA-256 (FIPS 180-4).
ghost use Rattle.std.specs.Prelude.{◌≡◌};
ghost use Rattle.sha2.specs.Sha256.{sha256};

use sha2::{Digest, Sha256};

pub fn sha_of(body: &[u8]) -> [u8; 32]
    ensures { result ≡ sha256 body.now }
{
    let mut hasher = Sha256::new();
    hasher.update(body);
    hasher.finalize()
}
