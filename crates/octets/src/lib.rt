// Octets: bytes copied into a lent buffer, and numbers in network byte order (highest byte first).
// Every other crate stands on this one. Copies and reads assume that the place lies inside the buffer; nothing else is assumed.
#![tactic(auto)]

ghost use Rattle.std.specs.Prelude.{◌≡◌, ◌+◌, ◌≤◌, length};
ghost use Rattle.std.proofs.Math.Seq.{paste};
ghost use Rattle.octets.specs.Octets.{be16 as be16_of, be32 as be32_of, get16, get32, get64, padded_of};
ghost use Rattle.octets.specs.Octets.{bytes16 as bytes16_of, bytes32 as bytes32_of, bytes64 as bytes64_of};

// Copies the whole of src to the place `at` of dst. What stands before and behind it stays.
pub fn copy_at(dst: &mut [u8], at: usize, src: &[u8])
    requires { at + length src.now ≤ length dst.old }
    ensures { dst.new ≡ paste dst.old at src.now (length src.now) }
{
    dst[at..at + src.len()].copy_from_slice(src);
}

// The whole of s in an array that has room for it. Zeros stand behind it.
pub fn padded<const N: usize>(s: &[u8]) -> [u8; N]
    requires { length s.now ≤ N }
    ensures { result ≡ padded_of N s.now }
{
    let mut out = [0; N];
    out[..s.len()].copy_from_slice(s);
    out
}

pub fn be16(a: u8, b: u8) -> u16
    ensures { result ≡ be16_of a b }
{
    u16::from_be_bytes([a, b])
}

// Kept (no plainer): the word of `mac`'s AES has the other byte order, and each of the two is one call of the library.
pub fn be32(a: u8, b: u8, c: u8, d: u8) -> u32
    ensures { result ≡ be32_of a b c d }
{
    u32::from_be_bytes([a, b, c, d])
}

// The number in the two bytes from `at` on.
pub fn load16(s: &[u8], at: usize) -> u16
    requires { at + 2 ≤ length s.now }
    ensures { result ≡ get16 s.now at }
{
    be16(s[at], s[at + 1])
}

// The number in the four bytes from `at` on.
// Kept (no plainer): each reader asks for its own bytes, at + 4 ≤ length; a type that holds a string and a place would say no more.
pub fn load32(s: &[u8], at: usize) -> u32
    requires { at + 4 ≤ length s.now }
    ensures { result ≡ get32 s.now at }
{
    be32(s[at], s[at + 1], s[at + 2], s[at + 3])
}

// The number in the eight bytes from `at` on.
// Kept (no plainer): as of `load32`, the fact is one of leaves, each with its own bytes.
pub fn load64(s: &[u8], at: usize) -> u64
    requires { at + 8 ≤ length s.now }
    ensures { result ≡ get64 s.now at }
{
    ((load32(s, at) as u64) << 32) | load32(s, at + 4) as u64
}

pub fn bytes16(x: u16) -> [u8; 2]
    ensures { result ≡ bytes16_of x }
{
    u16::to_be_bytes(x)
}

pub fn bytes32(x: u32) -> [u8; 4]
    ensures { result ≡ bytes32_of x }
{
    u32::to_be_bytes(x)
}

pub fn bytes64(x: u64) -> [u8; 8]
    ensures { result ≡ bytes64_of x }
{
    u64::to_be_bytes(x)
}
