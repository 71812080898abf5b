// The MAC library on lent bytes: docs/BOUNDARY.md, "The calls on one connection", its end. Each call gives how many bytes it wrote at the
// front of out: 20, 20, 32, 32, 16, 16, 16. Where out is shorter, or an AES key or block has not 16 bytes, it gives 0 and writes nothing.
// Assumes nothing.
#![tactic(auto)]

ghost use Rattle.std.specs.Prelude.{◌≡◌, length};
ghost use Rattle.digests.specs.Digests.{gives, into, room, sha1_into, hmac_sha1_into, sha256_into, hmac_sha256_into, aes128_into};
ghost use Rattle.digests.specs.Digests.{cmac_into, md5_into};

// Puts the digest at the front of out.
// Kept (C interface): 0 says to C that nothing was written.
fn give(digest: &[u8], out: &mut [u8]) -> u64
    ensures { gives result out.new ≡ into (room (length digest.now) out.old) (length digest.now) digest.now out.old }
{
    if out.len() < digest.len() {
        return 0;
    }
    octets::copy_at(out, 0, digest);
    digest.len() as u64
}

// SHA-1 of the message.
// Kept (C interface): `mac_sha1`, `mac_sha256` and `mac_md5` are each this call on lent bytes, and give a number.
pub fn sha1(message: &[u8], out: &mut [u8]) -> u64
    ensures { gives result out.new ≡ sha1_into message.now out.old }
{
    if out.len() < 20 {
        return 0;
    }
    give(&mac::sha1::sha1(message), out)
}

// HMAC-SHA-1 of the message under a key of any length.
// Kept (C interface): `mac_hmac_sha1` and `mac_hmac_sha256` are each this call on lent bytes, and give a number.
// Kept (C interface): C lends key, message and out one by one, so these parameters come as they are.
pub fn hmac_sha1(key: &[u8], message: &[u8], out: &mut [u8]) -> u64
    ensures { gives result out.new ≡ hmac_sha1_into key.now message.now out.old }
{
    if out.len() < 20 {
        return 0;
    }
    give(&mac::hmac::hmac_sha1(key, message), out)
}

// SHA-256 of the message.
pub fn sha256(message: &[u8], out: &mut [u8]) -> u64
    ensures { gives result out.new ≡ sha256_into message.now out.old }
{
    if out.len() < 32 {
        return 0;
    }
    give(&mac::sha256::sha256(message), out)
}

// HMAC-SHA-256 of the message under a key of any length.
pub fn hmac_sha256(key: &[u8], message: &[u8], out: &mut [u8]) -> u64
    ensures { gives result out.new ≡ hmac_sha256_into key.now message.now out.old }
{
    if out.len() < 32 {
        return 0;
    }
    give(&mac::hmac::hmac_sha256(key, message), out)
}

// One block encrypted by AES-128.
// Kept (C interface): 0 says to C that nothing was written.
pub fn aes128(key: &[u8], block: &[u8], out: &mut [u8]) -> u64
    ensures { gives result out.new ≡ aes128_into key.now block.now out.old }
{
    if key.len() != 16 {
        return 0;
    }
    if block.len() != 16 {
        return 0;
    }
    if out.len() < 16 {
        return 0;
    }
    let keys = mac::aes::expand_key(octets::padded(key));
    give(&mac::aes::encrypt(keys, octets::padded(block)), out)
}

// AES-CMAC of the message.
// Kept (C interface): 0 says to C that nothing was written.
pub fn aes128_cmac(key: &[u8], message: &[u8], out: &mut [u8]) -> u64
    ensures { gives result out.new ≡ cmac_into key.now message.now out.old }
{
    if key.len() != 16 {
        return 0;
    }
    if out.len() < 16 {
        return 0;
    }
    give(&mac::cmac::cmac(octets::padded(key), message), out)
}

// MD5 of the message.
pub fn md5(message: &[u8], out: &mut [u8]) -> u64
    ensures { gives result out.new ≡ md5_into message.now out.old }
{
    if out.len() < 16 {
        return 0;
    }
    give(&mac::md5::md5(message), out)
}
