// The MAC library for C: docs/BOUNDARY.md, "The calls on one connection", its end. The calls are those of the crate `digests`. Assumes
// nothing.
ghost use Rattle.std.specs.Prelude.{◌≡◌};
ghost use Rattle.digests.specs.Digests.{gives, sha1_into, hmac_sha1_into, sha256_into, hmac_sha256_into, aes128_into, cmac_into, md5_into};

// SHA-1 of the message.
#[unsafe(no_mangle)]
pub extern "C" fn mac_sha1(message: &[u8], out: &mut [u8]) -> u64
    ensures { gives result out.new ≡ sha1_into message.now out.old }
{
    digests::sha1(message, out)
}

// HMAC-SHA-1 of the message under a key of any length.
#[unsafe(no_mangle)]
pub extern "C" fn mac_hmac_sha1(key: &[u8], message: &[u8], out: &mut [u8]) -> u64
    ensures { gives result out.new ≡ hmac_sha1_into key.now message.now out.old }
{
    digests::hmac_sha1(key, message, out)
}

// SHA-256 of the message.
#[unsafe(no_mangle)]
pub extern "C" fn mac_sha256(message: &[u8], out: &mut [u8]) -> u64
    ensures { gives result out.new ≡ sha256_into message.now out.old }
{
    digests::sha256(message, out)
}

// HMAC-SHA-256 of the message under a key of any length.
#[unsafe(no_mangle)]
pub extern "C" fn mac_hmac_sha256(key: &[u8], message: &[u8], out: &mut [u8]) -> u64
    ensures { gives result out.new ≡ hmac_sha256_into key.now message.now out.old }
{
    digests::hmac_sha256(key, message, out)
}

// One block encrypted by AES-128.
#[unsafe(no_mangle)]
pub extern "C" fn mac_aes128(key: &[u8], block: &[u8], out: &mut [u8]) -> u64
    ensures { gives result out.new ≡ aes128_into key.now block.now out.old }
{
    digests::aes128(key, block, out)
}

// AES-CMAC of the message.
#[unsafe(no_mangle)]
pub extern "C" fn mac_aes128_cmac(key: &[u8], message: &[u8], out: &mut [u8]) -> u64
    ensures { gives result out.new ≡ cmac_into key.now message.now out.old }
{
    digests::aes128_cmac(key, message, out)
}

// MD5 of the message.
#[unsafe(no_mangle)]
pub extern "C" fn mac_md5(message: &[u8], out: &mut [u8]) -> u64
    ensures { gives result out.new ≡ md5_into message.now out.old }
{
    digests::md5(message, out)
}
