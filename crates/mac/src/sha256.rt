// SHA-256, FIPS 180-4, of a whole message. Of one that comes in pieces: hash.rt. The definition is specs/Sha256 over specs/Blocks.
// Assumes nothing.
ghost use Rattle.std.specs.Prelude.{◌≡◌};
ghost use Rattle.mac.specs.Sha256.{sha256 as sha256_of};

use crate::hash_algorithm::HashAlgorithm;

// SHA-256 of a whole message.
pub fn sha256(data: &[u8]) -> [u8; 32]
    ensures { result ≡ sha256_of «data».now }
{
    crate::hash::hash(HashAlgorithm::Sha256, data)
}
