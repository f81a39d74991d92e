//! Sums of texts and files.

ghost use Rattle.std.specs.Prelude.{◌≡◌};
ghost use Rattle.sha2.specs.Sha256.{sha256};

use crate::{Wrong, add_bytes};
use sha2::{Digest, Sha256};
use std::alloc::Global;

/// The SHA-256 of the bytes.
pub fn sum_of(bytes: &[u8]) -> [u8; 32]
    ensures { result ≡ sha256 bytes.now }
{
    let mut hasher = Sha256::new();
    hasher.update(bytes);
    hasher.finalize()
}

/// Whether these digits are the SHA-256 of the bytes.
///
/// # Errors
///
/// The digits are no pairs; or out of memory.
pub fn has_sum(alloc: Global, bytes: &[u8], digits: &str) -> Result<bool, Wrong> {
    let mut wanted = Vec::new(alloc);
    add_bytes(alloc, digits, 1, &mut wanted)?;
    Ok(sum_of(bytes).as_slice() == wanted.as_slice())
}
