// The same message in pieces: a hash, HMAC over it and CMAC streamed, so many bytes at a time, and
// compared with what the one call on the whole gave. Assumes nothing.
ghost use Rattle.std.specs.Prelude.{◌<◌};

use mac::cmac::CmacContext;
use mac::hash::HashContext;
use mac::hash_algorithm::{DIGEST_ROOM, HashAlgorithm};
use mac::hmac::HmacContext;

// By single bytes, by an odd number, by a block, and by one more than a block.
// Kept (no plainer): three contexts, each begun, fed and ended by calls of its own; one function over all would take these as closures.
pub fn hash(hash: HashAlgorithm, data: &[u8], got: &[u8]) -> bool {
    let agrees = |size: usize| -> bool
        requires { 0 < size }
    {
        data.chunks(size)
            .fold(HashContext::new(hash), |c, piece| c.update(hash, piece))
            .finish(hash)
            .starts_with(got)
    };
    agrees(1) && agrees(7) && agrees(64) && agrees(65)
}

pub fn hmac(hash: HashAlgorithm, key: &[u8], data: &[u8], got: &[u8]) -> bool {
    let agrees = |size: usize| -> bool
        requires { 0 < size }
    {
        data.chunks(size)
            .fold(
                HmacContext::new(hash, key),
                |c, piece| c.update(hash, piece),
            )
            .finish(hash)
            .starts_with(got)
    };
    agrees(1) && agrees(7) && agrees(64) && agrees(65)
}

pub fn cmac(key: [u8; 16], data: &[u8], got: &[u8]) -> bool {
    let agrees = |size: usize| -> bool
        requires { 0 < size }
    {
        data.chunks(size)
            .fold(CmacContext::new(key), |c, piece| c.update(piece))
            .finish()
            .starts_with(got)
    };
    agrees(1) && agrees(7) && agrees(16) && agrees(17)
}

// The last message of FIPS 180's lists, which no file spells out: one million times the byte 61.
pub fn million(hash: HashAlgorithm) -> [u8; DIGEST_ROOM] {
    let piece = [0x61u8; 1000];
    (0..1000)
        .fold(HashContext::new(hash), |c, _| c.update(hash, &piece))
        .finish(hash)
}
