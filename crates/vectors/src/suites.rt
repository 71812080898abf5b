// One method to a vector file: it computes what a line asks, prints it beside what the line
// expects, and says whether they agree; nothing where the line cannot be read. Assumes nothing.
use crate::pieces;
use crate::report::result;
use arrayvec::ArrayVec;
use columns::hex;
use columns::lines::{column, ends};
use mac::hash_algorithm::HashAlgorithm;
use std::io::Print;

#[derive(Clone, Copy)]
pub enum Suite {
    Hash(HashAlgorithm),
    Hmac(HashAlgorithm),
    Fips197,
    Rfc4493,
}

impl Suite {
    pub fn judged(self, rt: &impl Print, line: &[u8], key: [u8; 16]) -> Option<bool> {
        // Kept (no plainer): one arm to a kind of file, each with columns of its own; nothing else asks which.
        match self {
            Suite::Hash(hash) => digest(rt, hash, line),
            Suite::Hmac(hash) => code(rt, hash, line),
            Suite::Fips197 => fips197(rt, line),
            Suite::Rfc4493 => rfc4493(rt, line, key),
        }
    }
}

fn name(hash: HashAlgorithm) -> &'static str {
    match hash {
        HashAlgorithm::Sha1 => "SHA-1",
        HashAlgorithm::Sha256 => "SHA-256",
        HashAlgorithm::Md5 => "MD5",
    }
}

// What a column spells that is a message or a key.
fn message(text: &[u8]) -> Option<ArrayVec<u8, 256>> {
    hex::decode(text)
}

// FIPS 180-4, SHA-1 or SHA-256, and RFC 1321, MD5. Columns: message, digest.
fn digest(rt: &impl Print, hash: HashAlgorithm, line: &[u8]) -> Option<bool> {
    let want = hex::decode::<32>(column(line, 1))?;
    if !ends(line, 2) {
        return None;
    }
    if column(line, 0) == b"million-a".as_slice() {
        let _ = print!(rt; "{} of 1000000 bytes ", name(hash));
        let got = pieces::million(hash);
        return Some(result(rt, &got[..hash.digest_bytes()], true, &want));
    }
    let message = message(column(line, 0))?;
    let _ = print!(rt; "{} of {} bytes ", name(hash), message.len());
    // By the one call on the whole message, and in pieces.
    let compared = |got: &[u8]| result(rt, got, pieces::hash(hash, &message, got), &want);
    Some(match hash {
        HashAlgorithm::Sha1 => compared(&mac::sha1::sha1(&message)),
        HashAlgorithm::Sha256 => compared(&mac::sha256::sha256(&message)),
        HashAlgorithm::Md5 => compared(&mac::md5::md5(&message)),
    })
}

// RFC 2202, HMAC-SHA-1, and RFC 4231, HMAC-SHA-256. Columns: case, key, data, digest.
fn code(rt: &impl Print, hash: HashAlgorithm, line: &[u8]) -> Option<bool> {
    let key = message(column(line, 1))?;
    let message = message(column(line, 2))?;
    let want = hex::decode::<32>(column(line, 3))?;
    if !ends(line, 4) {
        return None;
    }
    let _ = print!(rt; "case ");
    let _ = rt.write_all(column(line, 0));
    Some(match hash {
        HashAlgorithm::Sha1 => {
            let _ = print!(rt; " HMAC-SHA-1 ");
            let got = mac::hmac::hmac_sha1(&key, &message);
            result(rt, &got, pieces::hmac(hash, &key, &message, &got), &want)
        }
        HashAlgorithm::Sha256 => {
            let _ = print!(rt; " HMAC-SHA-256 ");
            let got = mac::hmac::hmac_sha256(&key, &message);
            let agree = pieces::hmac(hash, &key, &message, &got);
            // RFC 4231 cuts case 5 to 16 bytes.
            let n = if want.len() == 16 { 16 } else { 32 };
            result(rt, &got[..n], agree, &want)
        }
        // No list of HMAC-MD5 is run.
        HashAlgorithm::Md5 => false,
    })
}

// A column that spells just sixteen bytes.
fn block(text: &[u8]) -> Option<[u8; 16]> {
    if text.len() == 32 {
        hex::decode::<16>(text)?.as_slice().try_into().ok()
    } else {
        None
    }
}

// FIPS 197, AES-128 encryption. Columns: key, plaintext, ciphertext.
fn fips197(rt: &impl Print, line: &[u8]) -> Option<bool> {
    let key = block(column(line, 0))?;
    let plain = block(column(line, 1))?;
    let want = block(column(line, 2))?;
    if !ends(line, 3) {
        return None;
    }
    let got = mac::aes::encrypt(mac::aes::expand_key(key), plain);
    let _ = print!(rt; "AES-128 ");
    Some(result(rt, &got, true, &want))
}

// The key that RFC 4493's lines are computed with from this one on, where it names one.
pub fn key_of(line: &[u8]) -> Option<[u8; 16]> {
    if column(line, 0) == b"key".as_slice() {
        block(column(line, 1))
    } else {
        None
    }
}

// RFC 4493, AES-CMAC. A line names the key or one of its two subkeys, or has the columns: message
// length, message, CMAC.
fn rfc4493(rt: &impl Print, line: &[u8], key: [u8; 16]) -> Option<bool> {
    match column(line, 0) {
        b"key" => named(rt, "key", line, key),
        b"k1" => named(rt, "K1", line, subkey(key)),
        b"k2" => named(rt, "K2", line, doubled(subkey(key))),
        bytes => {
            let message = message(column(line, 1))?;
            let want = block(column(line, 2))?;
            let mut digits = itoa::Buffer::new();
            if !ends(line, 3) || digits.format(message.len()).as_bytes() != bytes {
                return None;
            }
            let _ = print!(rt; "AES-CMAC of {} bytes ", message.len());
            let got = mac::cmac::cmac(key, &message);
            Some(result(rt, &got, pieces::cmac(key, &message, &got), &want))
        }
    }
}

fn named(rt: &impl Print, what: &str, line: &[u8], got: [u8; 16]) -> Option<bool> {
    let want = block(column(line, 1))?;
    if !ends(line, 2) {
        return None;
    }
    let _ = print!(rt; "{what} ");
    Some(result(rt, &got, true, &want))
}

// RFC 4493, section 2.3: K1 is L doubled, where L is the encrypted zero block, and K2 is K1 doubled.
fn subkey(key: [u8; 16]) -> [u8; 16] {
    doubled(mac::aes::encrypt(mac::aes::expand_key(key), [0; 16]))
}

fn doubled(s: [u8; 16]) -> [u8; 16] {
    let carry = if s[0] < 128 { 0 } else { 135 };
    ((u128::from_be_bytes(s) << 1) ^ carry).to_be_bytes()
}
