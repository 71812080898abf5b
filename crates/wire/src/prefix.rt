// Address prefixes by shifts and masks: document 01, "Key table", "the first prefix-length bits agree", and number 15, "address bits set
// past it". Assumes nothing: addresses of any length, and prefixes longer than they are. A byte that is not there counts as 0.
ghost use Rattle.std.specs.Prelude.{◌≡◌, ◌*◌, ◌-◌, ◌/◌, ◌%◌, ◌^◌, ◌≤◌, length, eqb};
ghost use Rattle.wire.specs.Prefix.{agree, clear_past_of};

use crate::bytes::{byte_at, same_throughout};

// The first n bits of two bytes are the same.
fn byte_agrees(x: u8, y: u8, n: usize) -> bool
    requires { n ≤ 8 }
    ensures { result ≡ eqb (x / 2 ^ (8 - n)) (y / 2 ^ (8 - n)) }
{
    let k = 8 - n;
    let p = (x as usize) >> k;
    let q = (y as usize) >> k;
    p == q
}

// All bits of two IPv6 addresses are the same, by two words: the loader compares every host with those before it that share an ID.
fn hosts_agree(a: &[u8], b: &[u8]) -> bool
    requires { (16 ≤ length a.now) × (16 ≤ length b.now) }
    ensures { result ≡ agree 128 a.now b.now }
{
    octets::load64(a, 0) == octets::load64(b, 0) && octets::load64(a, 8) == octets::load64(b, 8)
}

// The first `bits` bits of two addresses are the same. Two whole IPv6 addresses are compared by words. Others of one network mostly differ
// in their last whole byte, so it is looked at first; then the bytes that both have, all of them, so that the compiler can take many at
// once; then those that one lacks; then what is left of a byte.
pub fn agrees(a: &[u8], b: &[u8], bits: u8) -> bool
    ensures { result ≡ agree bits a.now b.now }
{
    if bits == 128 && 16 <= a.len() && 16 <= b.len() {
        return hosts_agree(a, b);
    }
    let whole = (bits as usize) >> 3;
    let rest = (bits as usize) & 7;
    if 0 < whole && byte_at(a, whole - 1) != byte_at(b, whole - 1) {
        return false;
    }
    let both = whole.min(a.len()).min(b.len());
    if !same_throughout(&a[..both], &b[..both]) {
        return false;
    }
    for i in both..whole {
        if byte_at(a, i) != byte_at(b, i) {
            return false;
        }
    }
    byte_agrees(byte_at(a, whole), byte_at(b, whole), rest)
}

// The bits of a byte past its first n are zero.
#[tactic(auto, using(crate::proofs::Bits::clear_is))]
fn byte_clear(x: u8, n: usize) -> bool
    requires { n ≤ 8 }
    ensures { result ≡ eqb (x % 2 ^ (8 - n)) 0 }
{
    let past = 8 - n;
    let m = (1usize << past) - 1;
    let low = (x as usize) & m;
    low == 0
}

// No bit of the address is set past the first `bits`.
pub fn clear_past(a: &[u8], bits: u8) -> bool
    ensures { result ≡ clear_past_of bits a.now }
{
    // How many bits of the prefix are left.
    let mut left = bits as usize;
    for &byte in a {
        let n = left.min(8);
        if !byte_clear(byte, n) {
            return false;
        }
        left -= n;
    }
    true
}
