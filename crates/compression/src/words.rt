// Words of 32 bits: FIPS 180-4 §3.2, the functions of §4.1 that both SHAs have, and a block's words.
ghost use Rattle.std.specs.Prelude.{◌≡◌, ℕ, ◌+◌, ◌≤◌, List, length};
ghost use Rattle.compression.specs.Words.{Ch, Maj, words_by};
ghost use Rattle.compression.specs.Md5Block.{low_first};
ghost use Rattle.octets.specs.Octets.{get32};

pub(crate) fn ch(x: u32, y: u32, z: u32) -> u32
    ensures { result ≡ Ch x y z }
{
    (x & y) ^ (!x & z)
}

pub(crate) fn maj(x: u32, y: u32, z: u32) -> u32
    ensures { result ≡ Maj x y z }
{
    (x & y) ^ (x & z) ^ (y & z)
}

// The order of the four bytes of a word.
pub trait ByteOrder {
    ghost word: { List ℕ → ℕ → ℕ };

    fn load(m: &[u8], at: usize) -> u32
        requires { at + 4 ≤ length m.now }
        ensures { result ≡ word m.now at };
}

// FIPS 180-4 §3.1: the highest byte first.
pub struct HighFirst;

impl ByteOrder for HighFirst {
    ghost word = { get32 };

    fn load(m: &[u8], at: usize) -> u32 {
        octets::load32(m, at)
    }
}

// RFC 1321 §2: the lowest byte first.
pub struct LowFirst;

impl ByteOrder for LowFirst {
    ghost word = { low_first };

    fn load(m: &[u8], at: usize) -> u32 {
        u32::from_le_bytes([m[at], m[at + 1], m[at + 2], m[at + 3]])
    }
}

// The sixteen words of a block.
pub fn load<O: ByteOrder>(m: &[u8]) -> [u32; 16]
    requires { length m.now ≡ 64 }
    ensures { result ≡ words_by O.word 16 m.now }
{
    let mut words = [0u32; 16];
    // Kept (proof): `array::from_fn` was tried: nothing is known of what a generic function's closure gives.
    for t in 0..16 {
        words[t] = O::load(m, 4 * t);
    }
    words
}
