// The MAC of an algorithm, of a message that comes in pieces: begin, data, end. Algorithms 1 and 3 are HMAC (RFC 2104) with SHA-1 and with
// SHA-256, any other is AES-CMAC (RFC 4493). So is TCP MD5's digest (RFC 2385), whose key comes last.
// It holds all that a run of pieces has to keep, as plain values. Assumes nothing: every value is a context, whose meaning is its view.
ghost use Rattle.std.specs.Prelude.{◌≡◌, cond};
ghost use Rattle.rules.specs.Mac.{is_hmac_of};
ghost use Rattle.traffic.specs.MacContext.{hash_for_lem, mac_view, mac_start, mac_absorb, mac_finished};

use crate::derive::master_key;
use keys::algorithm::Aes128Cmac96;
use keys::entry::Secret;
use mac::cmac::CmacContext;
use mac::hash::HashContext;
use mac::hash_algorithm::{DIGEST_ROOM, HashAlgorithm};
use mac::hmac::HmacContext;

// An HMAC with its hash; AES-CMAC; or the digest of TCP MD5, with the secret whose key comes last. What HmacContext, CmacContext and
// HashContext leave free the contracts leave free here too.
#[derive(Clone, Copy)]
pub enum MacContext {
    Hmac(HashAlgorithm, HmacContext),
    Cmac(CmacContext),
    Digest(HashContext, Secret),
}

// The hash of an algorithm that applies an HMAC; every other applies AES-CMAC.
pub(crate) fn hmac_hash(algorithm: u8) -> Option<HashAlgorithm>
    ensures { result ≡ cond (is_hmac_of algorithm) (Some (hash_for_lem algorithm)) None }
{
    match algorithm {
        1 => Some(HashAlgorithm::Sha1),
        3 => Some(HashAlgorithm::Sha256),
        _ => None,
    }
}

impl MacContext {
    // Of 19 too AES-CMAC is begun, as of every other number.
    // Kept (may not change): `mac_start` and `applied` give each number a meaning; from here on it is a variant.
    #[tactic(auto, unfolding(crate::specs::MacContext::mac_start))]
    pub fn new(algorithm: u8, key: [u8; DIGEST_ROOM]) -> Self
        ensures { mac_view result ≡ mac_start algorithm key }
    {
        match hmac_hash(algorithm) {
            Some(hash) => {
                MacContext::Hmac(hash, HmacContext::new(hash, &key[..hash.digest_bytes()]))
            }
            None => {
                let key = <[u8; 16]>::try_from(&key[..Aes128Cmac96::TRAFFIC_KEY_BYTES]).unwrap();
                MacContext::Cmac(CmacContext::new(key))
            }
        }
    }

    #[tactic(auto, unfolding(crate::specs::MacContext::mac_absorb))]
    pub fn update(self, data: &[u8]) -> Self
        ensures { mac_view result ≡ mac_absorb (mac_view self) «data».now }
    {
        match self {
            MacContext::Hmac(hash, context) => MacContext::Hmac(hash, context.update(hash, data)),
            MacContext::Cmac(context) => MacContext::Cmac(context.update(data)),
            MacContext::Digest(context, secret) => {
                MacContext::Digest(context.update(HashAlgorithm::Md5, data), secret)
            }
        }
    }

    // Kept (no plainer): a match over the three MACs, a line to each; a dyn value could not be kept as plain bytes between calls.
    #[tactic(auto, unfolding(crate::specs::MacContext::mac_finished, mac::specs::Hmac::filled))]
    pub fn finish(self) -> [u8; DIGEST_ROOM]
        ensures { result ≡ mac_finished (mac_view self) }
    {
        match self {
            MacContext::Hmac(hash, context) => context.finish(hash),
            MacContext::Cmac(context) => octets::padded(&context.finish()),
            MacContext::Digest(context, secret) => context
                .update(HashAlgorithm::Md5, master_key(&secret))
                .finish(HashAlgorithm::Md5),
        }
    }
}
