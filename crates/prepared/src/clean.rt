// A stored entry brought to one that valid bytes could hold, part by part. Every byte is an input.
ghost use Rattle.std.specs.Prelude.{◌≡◌, ◌+◌, ◌≤◌, length};
ghost use Rattle.octets.specs.Octets.{get16};
ghost use Rattle.prepared.specs.Prepared.{kept, clear, cut, clean_family, clean_side, clean_selector, clean_secret, clean_ids};
ghost use Rattle.prepared.specs.Prepared.{front_ids, raw_selector, raw_secret, stored_entry};

use keys::entry::{Entry, Ids, Secret, Selector, Side};
use keys::matching::fixed_bits;
use keys::table::TableKind;

#[tactic(auto, unfolding(crate::specs::Prepared::clean_family))]
pub(crate) fn family_of(x: u8) -> u8
    ensures { result ≡ clean_family x }
{
    if x == 4 { 4 } else { 6 }
}

// The first n bits of a byte.
fn keep(x: u8, n: u8) -> u8
    requires { n ≤ 8 }
    ensures { result ≡ kept n x }
{
    let k = 8 - n;
    (u16::from(x) >> k << k) as u8
}

// The first `bits` bits of an address.
fn cleared(a: &[u8], bits: u8) -> [u8; 16]
    requires { length a.now ≡ 16 }
    ensures { result ≡ clear bits a.now }
{
    let mut out = [0; 16];
    let mut left = bits;
    for i in 0..16 {
        let n = left.min(8);
        out[i] = keep(a[i], n);
        left -= n;
    }
    out
}

// The first n bytes of a key, padded with zeros.
fn key_of(k: &[u8], n: u8) -> [u8; 80]
    requires { (length k.now ≡ 80) × (n ≤ 80) }
    ensures { result ≡ cut n k.now }
{
    octets::padded(&k[..n as usize])
}

// The side whose ports stand at `ports` of r.
#[tactic(auto, unfolding(crate::specs::Prepared::clean_side))]
fn side_of(family: u8, r: &[u8], ports: usize, bits: u8, a: &[u8]) -> Side
    requires { (length a.now ≡ 16) × (ports + 4 ≤ length r.now) }
    ensures { result ≡ clean_side family (record {
      low = get16 r.now ports;
      high = get16 r.now (ports + 2);
      bits = bits;
      address = a.now;
    }) }
{
    let bits = fixed_bits(family, bits);
    let low = octets::load16(r, ports);
    let high = octets::load16(r, ports + 2);
    Side {
        low: low.min(high),
        high: low.max(high),
        bits,
        address: cleared(a, bits),
    }
}

// An entry as it is stored: its front, put together, and its back.
#[derive(Clone, Copy)]
pub(crate) struct RawEntry<'a> {
    pub(crate) front: [u8; 28],
    pub(crate) back: &'a [u8],
    pub(crate) ghost long: { length back.now ≡ 101 },
}

impl<'a> RawEntry<'a> {
    pub(crate) fn new(front: [u8; 28], back: &'a [u8]) -> RawEntry<'a>
        requires { length back.now ≡ 101 }
        ensures { (result.front ≡ front) × (result.back.now ≡ back.now) }
    {
        RawEntry { front, back }
    }

    pub(crate) fn selector(&self) -> Selector
        ensures { result ≡ clean_selector (raw_selector self.now.front self.now.back.now) }
    {
        let family = family_of(self.front[3]);
        Selector {
            family,
            local: side_of(family, &self.front, 24, self.back[4], &self.back[5..21]),
            remote: side_of(family, &self.front, 20, self.front[2], &self.front[4..20]),
        }
    }

    #[tactic(auto, unfolding(crate::specs::Prepared::clean_ids, crate::specs::Prepared::front_ids))]
    fn ids(&self, kind: TableKind) -> Ids
        ensures { result ≡ clean_ids kind (front_ids self.now.front) }
    {
        match kind {
            TableKind::Keys => Ids {
                send: self.front[0],
                recv: self.front[1],
            },
            TableKind::Md5 => Ids { send: 0, recv: 0 },
        }
    }

    // How an entry of the kind signs.
    fn secret(&self, kind: TableKind) -> Secret
        ensures { result ≡ clean_secret kind (raw_secret self.now.back.now) }
    {
        let r = self.back;
        let key_len = r[3].clamp(1, 80);
        let key = key_of(&r[21..101], key_len);
        match kind {
            TableKind::Keys => Secret {
                flags: r[0] % 8,
                algorithm: r[1].clamp(1, 3),
                mac_bytes: r[2].clamp(4, 16),
                key_len,
                key,
            },
            TableKind::Md5 => Secret {
                flags: 0,
                algorithm: 19,
                mac_bytes: 16,
                key_len,
                key,
            },
        }
    }

    #[tactic(auto, unfolding(crate::specs::Prepared::clean, crate::specs::Prepared::raw_entry))]
    pub(crate) fn entry(&self, kind: TableKind) -> Entry
        ensures { result ≡ stored_entry kind self.now.front self.now.back.now }
    {
        Entry {
            selector: self.selector(),
            ids: self.ids(kind),
            secret: self.secret(kind),
        }
    }
}
