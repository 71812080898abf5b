// The mark of an address: its bytes added up. It is stored in the place of the last byte, which comes back from it.
ghost use Rattle.std.specs.Prelude.{◌≡◌, ◌%◌, ◌≤◌, length};
ghost use Rattle.prepared.specs.Prepared.{octet_sum_of, mark_of, address_of, stored_address_of};

use keys::entry::width_of;

// The sum of some bytes, as a byte.
fn octet_sum(s: &[u8]) -> u8
    ensures { result ≡ octet_sum_of s.now % 256 }
{
    s.iter().fold(0u8, |sum, byte| sum.wrapping_add(*byte))
}

pub(crate) fn mark_of(family: u8, a: [u8; 16]) -> u8
    ensures { result ≡ mark_of family a }
{
    octet_sum(&a[..width_of(family)])
}

// The address of a mark and the bytes before its last.
pub(crate) fn address_of(family: u8, mark: u8, a: &[u8]) -> [u8; 16]
    requires { length a.now ≡ 15 }
    ensures { result ≡ address_of family mark a.now }
{
    let last = width_of(family) - 1;
    let mut out = octets::padded(&a[..last]);
    out[last] = mark.wrapping_sub(octet_sum(&a[..last]));
    out
}

// The bytes before an address's last.
pub(crate) fn stored_address(family: u8, a: [u8; 16]) -> [u8; 15]
    ensures { result ≡ stored_address_of family a }
{
    octets::padded(&a[..width_of(family) - 1])
}
