ghost use Rattle.std.specs.Prelude.{◌≡◌, IfOk, string_bytes};
ghost use Rattle.cov_hash.specs.Hash.{hash_text};

use items::Memory;
use sha1::Sha1;
use std::alloc::Global;

/// The SHA-1 of the bytes in lower-case hexadecimal digits, forty of them, or want of memory.
pub fn hash_of(alloc: Global, bytes: &[u8]) -> Result<String, Memory>
    ensures { IfOk result (λ text. string_bytes text ≡ hash_text bytes.now) }
{
    hex::encode(alloc, Sha1::digest(bytes))
}
