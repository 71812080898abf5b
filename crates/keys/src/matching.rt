// Whom an entry matches, and when two overlap: document 01, "Key table (house bytes)". Only the family's bytes of an address are looked at.
// Every value of the types is an input.
ghost use Rattle.std.specs.Prelude.{◌≡◌, ◌+◌, ◌≤◌, max, min, length, take, drop, get_or, leb};
ghost use Rattle.octets.specs.Octets.{get16};
ghost use Rattle.wire.specs.Prefix.{agree};
ghost use Rattle.keys.specs.Entry.{width, padded};
ghost use Rattle.keys.specs.Match.{fixed, holds, matches as matches_of, overlap, share};

use crate::entry::{EntryBytes, Ids, Pair, Selector, Side, width_of};

// How many bits a prefix length fixes, of an address of the family.
// Kept (may not change): the family is a selector's byte, of which any may come: `fixed`, `holds` and `matches` answer for each.
#[tactic(auto, unfolding(crate::specs::Entry::width))]
pub fn fixed_bits(family: u8, bits: u8) -> u8
    ensures { result ≡ fixed family bits }
{
    bits.min(if family == 4 { 32 } else { 128 })
}

// The port lies in the side's range, and the address begins as the side's does.
// The side's address is taken out of it first, as in `addresses_meet`.
#[tactic(auto, unfolding(crate::specs::Match::holds))]
fn side_holds(family: u8, s: Side, port: u16, address: [u8; 16]) -> bool
    ensures { result ≡ holds family s port address }
{
    let prefix = s.address;
    s.low <= port
        && port <= s.high
        && wire::prefix::agrees(&prefix, &address, fixed_bits(family, s.bits))
}

#[tactic(auto, unfolding(crate::specs::Match::matches))]
pub fn matches(s: Selector, p: Pair) -> bool
    ensures { result ≡ matches_of s p }
{
    s.family == p.family
        && side_holds(s.family, s.local, p.local_port, p.local)
        && side_holds(s.family, s.remote, p.remote_port, p.remote)
}

// Whether a side of an entry has a port in common with another side. Its ports stand at `ports` of the entry's bytes.
fn ports_meet(e: &[u8], ports: usize, b: Side) -> bool
    requires { ports + 4 ≤ length e.now }
    ensures { result ≡ leb (max (get16 e.now ports) b.low) (min (get16 e.now (ports + 2)) b.high) }
{
    octets::load16(e, ports).max(b.low) <= octets::load16(e, ports + 2).min(b.high)
}

// Whether a side of an entry has an address in common with another side. Its address stands at `at` of the entry's bytes.
// b's address is taken out of b first: within a whole side on the stack it was laid by two stores, the second of its last byte alone, and
// a load of all sixteen waited for both, so that the loader took twice its time over IPv6 addresses. The function is taken into
// `overlaps`: apart, a whole side was copied for each call.
#[inline(always)]
fn addresses_meet(e: &[u8], family: u8, at: usize, b: Side) -> bool
    requires { at + width family + 1 ≤ length e.now }
    ensures { result ≡ agree (min (fixed family (get_or e.now (at + width family) 0)) (fixed family b.bits))
        (padded (take (width family) (drop at e.now))) b.address }
{
    let n = fixed_bits(family, e[at + width_of(family)]).min(fixed_bits(family, b.bits));
    let address = b.address;
    wire::prefix::agrees(&e[at..], &address, n)
}

// Some socket pair is matched by the entry and by b. Nothing of the entry is copied, and ports are compared first: the loader asks this of
// many pairs. It is taken into the loops of both its callers: left to the compiler it stayed apart with a second one, and the loader took
// half as long again.
#[inline(always)]
pub(crate) fn overlaps(entry: &EntryBytes<'_>, b: Selector) -> bool
    ensures { result ≡ overlap entry.now.selector b }
{
    let (family, other) = (entry.family(), b.family);
    if family != other {
        return false;
    }
    let e = entry.bytes;
    ports_meet(e, 9, b.remote)
        && ports_meet(e, 5, b.local)
        && addresses_meet(e, family, 14 + width_of(family), b.remote)
        && addresses_meet(e, family, 13, b.local)
}

#[tactic(auto, unfolding(crate::specs::Match::share))]
pub(crate) fn shares(a: Ids, b: Ids) -> bool
    ensures { result ≡ share a b }
{
    a.send == b.send || a.recv == b.recv
}
