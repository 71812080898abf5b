// One entry of either table (of the key table, an MKT of RFC 5925, section 3.1), by value and read from its bytes: document 01, "Key table
// (house bytes)", and document 02, Tickets 4, 9 and 10.
ghost use Rattle.std.specs.Prelude.{true, false, not, ◌&&◌, ◌≡◌, ◌+◌, ◌*◌, ◌≤◌, length, take, drop, get_or, eqb, MatchOption};
ghost use Rattle.keys.specs.Entry.{known_kind_of, family_of_lem, extra, size, width, padded, side_of, sides_end_of, entry_of, item, sound};

use std::marker::Model;

// One side of whom an entry matches: ports from low to high, and the addresses whose first `bits` bits are those of `address`.
#[derive(Clone, Copy)]
pub struct Side {
    pub low: u16,
    pub high: u16,
    pub bits: u8,
    pub address: [u8; 16],
}

// Kept (may not change): the family is the table's byte; `matches` answers for every byte, and 18 is given for those other than 4 and 6.
// Whom an entry matches. IPv4 (family 4) uses the first four bytes of an address field, IPv6 (family 6) all sixteen.
#[derive(Clone, Copy)]
pub struct Selector {
    pub family: u8,
    pub local: Side,
    pub remote: Side,
}

// SendID and RecvID.
#[derive(Clone, Copy)]
pub struct Ids {
    pub send: u8,
    pub recv: u8,
}

// How an entry signs: bit 0 of the flags says that all options are covered, bits 1 and 2 that the local and the remote side's address and
// port count as zero; the key is the first key_len bytes.
// Kept (may not change): the table's bytes, of which any may come: `entry_of` reads any algorithm and key_len; 13 and 16 refuse them.
#[derive(Clone, Copy)]
pub struct Secret {
    pub flags: u8,
    pub algorithm: u8,
    pub mac_bytes: u8,
    pub key_len: u8,
    pub key: [u8; 80],
}

#[derive(Clone, Copy)]
pub struct Entry {
    pub selector: Selector,
    pub ids: Ids,
    pub secret: Secret,
}

// A socket pair. The bytes of an address field that the family does not use mean nothing.
// Kept (may not change): the family is a state's byte: `states::state::decode` takes any, and 18 refuses those other than 4 and 6.
#[derive(Clone, Copy, PartialEq, Eq, Debug)]
pub struct Pair {
    pub family: u8,
    pub local_port: u16,
    pub remote_port: u16,
    pub local: [u8; 16],
    pub remote: [u8; 16],
}

// Kept (may not change): kinds are the tables' bytes, of which every one may come (11).
// Kinds 4 to 7.
#[tactic(auto, unfolding(crate::specs::Entry::known_kind_of))]
pub(crate) fn known_kind(kind: u8) -> bool
    ensures { result ≡ known_kind_of kind }
{
    4 <= kind && kind <= 7
}

// One for the kinds that have a byte for the MAC's length.
#[tactic(auto, unfolding(crate::specs::Entry::extra))]
fn extra_of(kind: u8) -> u8
    ensures { result ≡ extra kind }
{
    kind % 2
}

// Kinds 4 and 6.
pub(crate) fn plain_kind(kind: u8) -> bool
    ensures { result ≡ (known_kind_of kind && not (eqb (extra kind) 1)) }
{
    known_kind(kind) && extra_of(kind) != 1
}

// Kinds 4 and 5 are IPv4's, 6 and 7 IPv6's.
#[tactic(auto, unfolding(crate::specs::Entry::family_of_lem, crate::specs::Entry::extra))]
fn family_of(kind: u8) -> u8
    ensures { result ≡ family_of_lem kind }
{
    kind - extra_of(kind)
}

// How many bytes an address has.
// Kept (may not change): the family is a byte of a table or a state, of which any may come; `width` gives 16 for all but 4.
#[tactic(auto, unfolding(crate::specs::Entry::width))]
pub fn width_of(family: u8) -> usize
    ensures { result ≡ width family }
{
    if family == 4 { 4 } else { 16 }
}

// How many bytes an entry has, its kind among them. Written so that the compiler needs few steps: the walks wait for it.
fn size_of(kind: u8) -> usize
    requires { known_kind_of kind ≡ true }
    ensures { result ≡ size kind }
{
    if family_of(kind) == 4 {
        100 + kind as usize
    } else {
        122 + kind as usize
    }
}

// Where the two sides end, in an entry of the kind.
#[tactic(auto, unfolding(crate::specs::Entry::width))]
fn sides_end(kind: u8) -> usize
    ensures { result ≡ sides_end_of kind }
{
    15 + 2 * width_of(family_of(kind))
}

// The side whose ports stand at `ports` and whose address of the family stands at `at`. The address is copied by its width as a number:
// a copy of known length for each family made the loader's comparison of IPv6 addresses take twice its time.
#[tactic(auto, unfolding(crate::specs::Entry::side_of, crate::specs::Entry::width))]
fn side_of(e: &[u8], family: u8, ports: usize, at: usize) -> Side
    requires { (ports + 4 ≤ length e.now) × (at + width family + 1 ≤ length e.now) }
    ensures { result ≡ side_of (width family) ports at e.now }
{
    let end = at + width_of(family);
    Side {
        low: octets::load16(e, ports),
        high: octets::load16(e, ports + 2),
        bits: e[end],
        address: octets::padded(&e[at..end]),
    }
}

// The bytes of a table from an entry on that is there whole. In contracts it is that entry.
#[derive(Drop)]
pub struct EntryBytes<'a> {
    pub(crate) bytes: &'a [u8],
}

impl<'a> Model for EntryBytes<'a> {
    ghost use Rattle.std.specs.Prelude.{◌<◌, length, get_or};
    ghost use Rattle.keys.specs.declared.entry.Entry.{Entry};
    ghost use Rattle.keys.specs.Entry.{body, entry_of};

    ghost Value = { Entry };

    ghost view = { λ e. entry_of e.bytes.now };

    ghost invariant = { λ e. body (get_or e.bytes.now 0 0) < length e.bytes.now };
}

impl<'a> EntryBytes<'a> {
    // The entry that begins a table, and the bytes behind it.
    pub(crate) fn split_first(table: &'a [u8]) -> Option<(EntryBytes<'a>, &'a [u8])>
        ensures { MatchOption result (sound (item table.now) ≡ false)
            (λ p. (sound (item table.now) ≡ true)
            × (p.0 ≡ entry_of table.now)
            × (p.1.now ≡ drop (size (get_or table.now 0 0)) table.now)) }
    {
        let kind = *table.first()?;
        if !known_kind(kind) {
            return None;
        }
        let n = size_of(kind);
        if table.len() < n {
            return None;
        }
        Some((EntryBytes { bytes: table }, &table[n..]))
    }

    pub(crate) fn family(&self) -> u8
        ensures { result ≡ self.now.selector.family }
    {
        family_of(self.bytes[0])
    }

    pub(crate) fn selector(&self) -> Selector
        ensures { result ≡ self.now.selector }
    {
        let family = self.family();
        Selector {
            family,
            local: side_of(self.bytes, family, 5, 13),
            remote: side_of(self.bytes, family, 9, 14 + width_of(family)),
        }
    }

    pub(crate) fn ids(&self) -> Ids
        ensures { result ≡ self.now.ids }
    {
        Ids {
            send: self.bytes[3],
            recv: self.bytes[4],
        }
    }

    // The MAC's length is the byte before the key length where the kind has it, else the algorithm's number.
    fn secret(&self) -> Secret
        ensures { result ≡ self.now.secret }
    {
        let kind = self.bytes[0];
        let algorithm = self.bytes[2];
        let end = sides_end(kind);
        let at = end + extra_of(kind) as usize;
        let mut key = [0; 80];
        key.copy_from_slice(&self.bytes[at + 1..at + 81]);
        Secret {
            flags: self.bytes[1],
            algorithm,
            mac_bytes: if extra_of(kind) == 1 {
                self.bytes[end]
            } else {
                crate::algorithm::mac_bytes(algorithm)
            },
            key_len: self.bytes[at],
            key,
        }
    }

    pub fn entry(&self) -> Entry
        ensures { result ≡ self.now }
    {
        Entry {
            selector: self.selector(),
            ids: self.ids(),
            secret: self.secret(),
        }
    }
}

// The entry whose bytes begin with e's.
pub fn entry_of(e: &[u8]) -> Entry
    requires { size (get_or e.now 0 0) ≤ length e.now }
    ensures { result ≡ entry_of e.now }
{
    EntryBytes { bytes: e }.entry()
}
