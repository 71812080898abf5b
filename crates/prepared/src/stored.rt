// A prepared table, read: its counts and length, and the searches. Any bytes may come as one.
ghost use Rattle.std.specs.Prelude.{cond, true, false, ◌≡◌, ◌+◌, ◌*◌, ◌/◌, ◌%◌, ◌^◌, ◌≤◌, ◌<◌, eqb, length, take, drop};
ghost use Rattle.std.specs.Prelude.{unwrap_or, IfSome, MatchOption};
ghost use Rattle.octets.specs.Each.{Octets};
ghost use Rattle.octets.specs.Octets.{get16};
ghost use Rattle.keys.specs.Match.{matches as matches_of};
ghost use Rattle.keys.specs.Table.{found, found_of, answers};
ghost use Rattle.keys.specs.declared.table.By.TheVariants.{Any};
ghost use Rattle.prepared.specs.Prepared.{prepared_bytes, fits as fits_of, clean_selector, raw_selector, front_at_lem, slot_at, back_at};
ghost use Rattle.prepared.specs.Prepared.{key_count_of, md5_count, stored_from, key_part, md5_part};
ghost use Rattle.prepared.specs.Scan.{top, near_front_of, last_byte_of, near_last_of, near_rest, near_back_of, near_local_of, port_in_lem};
ghost use Rattle.prepared.specs.Scan.{id_at, possible, nearby_of, alike_of, candidate_of, wanted_of, hit as hit_of, First, Asks};
ghost use Rattle.prepared.specs.Scan.{NoneClose, NoneNamed, NoneIn};

use crate::clean::{RawEntry, family_of};
use crate::mark::{address_of, mark_of};
use keys::entry::{Pair, width_of};
use keys::matching::{fixed_bits, matches};
use keys::table::{By, Hit, TableKind};
use octets::{load16, load64};

// "Raise 64 entries to 1,024", in either table.
pub const MAX_ENTRIES: usize = 1024;

// How many entries of a column are looked at at once.
const BLOCK: usize = 32;

// What a search compares entries with, all of it from the pair: the length of an address in bits and the mark of the remote one, the
// ports, and the addresses as numbers of eight bytes (of the remote one bytes 0 to 7 and 7 to 14, of the local one its two halves).
// It is lent to what compares: a copy was made at each turn where it was passed by value.
#[derive(Clone, Copy)]
struct Wanted {
    limit: u8,
    mark: u8,
    remote: u16,
    local: u16,
    high: u64,
    low: u64,
    upper: u64,
    lower: u64,
}

impl Wanted {
    fn of(pair: Pair) -> Wanted
        ensures { result ≡ wanted_of pair }
    {
        Wanted {
            limit: (8 * width_of(pair.family)) as u8,
            mark: mark_of(pair.family, pair.remote),
            remote: pair.remote_port,
            local: pair.local_port,
            high: load64(&pair.remote, 0),
            low: load64(&pair.remote, 7),
            upper: load64(&pair.local, 0),
            lower: load64(&pair.local, 8),
        }
    }
}

// Whether the first n bits of two numbers agree.
fn top_bits(n: u8, x: u64, y: u64) -> bool
    requires { n ≤ 64 }
    ensures { result ≡ top n x y }
{
    if n == 0 {
        return true;
    }
    let k = 64 - n;
    (x >> k) == (y >> k)
}

// How many first bits of a remote address are compared first: those of the first three bytes of IPv4, of the first eight of IPv6.
fn most_bits(family: u8) -> u8
    ensures { result ≡ cond (eqb family 4) 24 64 }
{
    if family == 4 { 24 } else { 64 }
}

// The last byte of an IPv4 address, from its mark and the three before it.
fn last_byte(m: u8, a: u8, b: u8, c: u8) -> u8
    ensures { result ≡ last_byte_of m a b c }
{
    let sum = (a as u16 + b as u16 + c as u16) % 256;
    ((m as u16 + 256 - sum) % 256) as u8
}

// The fourth byte of an address whose first eight bytes make the number.
fn fourth_byte(high: u64) -> u8
    ensures { result ≡ high / 2 ^ 32 % 256 }
{
    ((high >> 32) % 256) as u8
}

// Whether the last bytes of two IPv4 addresses agree in the bits that a prefix covers.
#[tactic(auto, unfolding(crate::specs::Scan::near_last_of))]
fn near_last(x: u8, y: u8, bits: u8) -> bool
    ensures { result ≡ near_last_of x y bits }
{
    if bits <= 24 {
        return true;
    }
    let k = 32 - bits.min(32);
    (x >> k) == (y >> k)
}

// Whether the local address of a back agrees with the one whose two halves make the numbers, in the bits that its prefix covers.
fn near_local(family: u8, r: &[u8], upper: u64, lower: u64) -> bool
    requires { 21 ≤ length r.now }
    ensures { result ≡ near_local_of family r.now upper lower }
{
    let n = fixed_bits(family_of(family), r[4]);
    if n <= 64 {
        return top_bits(n, load64(r, 5), upper);
    }
    if load64(r, 5) != upper {
        return false;
    }
    top_bits(n - 64, load64(r, 13), lower)
}

// The slot of an entry: its family, the remote address without its last byte, and the ports.
#[derive(Clone, Copy)]
struct Slot<'a> {
    bytes: &'a [u8],
    ghost long: { length bytes.now ≡ 24 },
}

impl<'a> Slot<'a> {
    // Whether a port lies in the range whose two ends stand at `at`.
    fn port_in(&self, at: usize, port: u16) -> bool
        requires { at + 4 ≤ 24 }
        ensures { result ≡ port_in_lem self.now.bytes.now at port }
    {
        let x = load16(self.bytes, at);
        let y = load16(self.bytes, at + 2);
        x.min(y) <= port && port <= x.max(y)
    }

    // Whether the remote address begins as the address whose first eight bytes make the number.
    #[tactic(auto, unfolding(crate::specs::Scan::near_front_of))]
    fn near_front(&self, bits: u8, high: u64) -> bool
        ensures { result ≡ near_front_of self.now.bytes.now bits high }
    {
        top_bits(
            bits.min(most_bits(self.bytes[0])),
            load64(self.bytes, 1),
            high,
        )
    }

    // Whether, of IPv6, the eight bytes before the last one agree with the number in the bits that a prefix covers: the hosts of one /64
    // differ only there and in the last byte.
    #[tactic(auto, unfolding(crate::specs::Scan::near_rest))]
    fn near_rest(&self, bits: u8, low: u64) -> bool
        ensures { result ≡ near_rest self.now.bytes.now bits low }
    {
        if bits <= 64 {
            return true;
        }
        top_bits(bits.min(120) - 56, load64(self.bytes, 8), low)
    }

    // Whether the remote address, with this mark, agrees behind its first bits in the bits that its prefix covers; of IPv6 without its
    // last byte.
    #[tactic(auto, unfolding(crate::specs::Scan::near_back_of))]
    fn near_back(&self, bits: u8, m: u8, w: &Wanted) -> bool
        ensures { result ≡ near_back_of self.now.bytes.now bits m w.now.high w.now.low }
    {
        let s = self.bytes;
        if s[0] == 4 {
            return near_last(last_byte(m, s[1], s[2], s[3]), fourth_byte(w.high), bits);
        }
        self.near_rest(bits, w.low)
    }
}

// Whether an entry can match by its prefix length and mark. Without branches, so that the compiler takes many entries at once.
fn can_match(bits: u8, mark: u8, w: &Wanted) -> bool
    ensures { result ≡ possible w.now.limit w.now.mark bits mark }
{
    (bits < w.limit) | (mark == w.mark)
}

// Whether some entry of a block can match so. All are looked at, so that the compiler takes many at once.
fn some_can_match(bits: &[u8], marks: &[u8], w: &Wanted) -> bool
    requires { (length bits.now ≡ 32) × (length marks.now ≡ 32) }
    ensures { NoneClose bits.now marks.now w.now.limit w.now.mark result }
{
    let mut some = false;
    for i in 0..BLOCK {
        some = some | can_match(bits[i], marks[i], w);
    }
    some
}

// The same where the entry has the ID too.
fn some_named_can_match(ids: &[u8], id: u8, bits: &[u8], marks: &[u8], w: &Wanted) -> bool
    requires { (length ids.now ≡ 32) × (length bits.now ≡ 32) × (length marks.now ≡ 32) }
    ensures { NoneNamed ids.now bits.now marks.now id w.now.limit w.now.mark result }
{
    let mut some = false;
    for i in 0..BLOCK {
        some = some | ((ids[i] == id) & can_match(bits[i], marks[i], w));
    }
    some
}

// The bytes of a prepared table with n entries, key entries and MD5 entries: four columns, slots, backs.
#[derive(Clone, Copy)]
struct Stored<'a> {
    bytes: &'a [u8],
    n: usize,
    ghost room: { prepared_bytes n ≤ length bytes.now },
    ghost octets: { Octets bytes.now },
}

impl<'a> Stored<'a> {
    fn slot(&self, i: usize) -> Slot<'a>
        requires { i < self.now.n }
        ensures { result.bytes.now ≡ slot_at self.now.bytes.now self.now.n i }
    {
        let at = 4 + 4 * self.n + 24 * i;
        Slot {
            bytes: &self.bytes[at..at + 24],
        }
    }

    fn back(&self, i: usize) -> &'a [u8]
        requires { i < self.now.n }
        ensures { (result.now ≡ back_at self.now.bytes.now self.now.n i) × (length result.now ≡ 101) }
    {
        let at = 4 + 28 * self.n + 101 * i;
        &self.bytes[at..at + 101]
    }

    // The entry as it is stored: its front put together, and its back.
    fn raw(&self, i: usize) -> RawEntry<'a>
        requires { i < self.now.n }
        ensures { (result.front ≡ front_at_lem self.now.bytes.now self.now.n i)
            × (result.back.now ≡ back_at self.now.bytes.now self.now.n i) }
    {
        let t = self.bytes;
        let s = self.slot(i).bytes;
        let family = s[0];
        let head = [t[4 + i], t[4 + self.n + i], t[4 + 2 * self.n + i], family];
        let a = address_of(family_of(family), t[4 + 3 * self.n + i], &s[1..16]);
        let mut front = [0; 28];
        octets::copy_at(&mut front, 0, &head);
        octets::copy_at(&mut front, 4, &a);
        octets::copy_at(&mut front, 20, &s[16..24]);
        RawEntry::new(front, self.back(i))
    }

    // Whether the entry has the ID.
    fn has_id(&self, i: usize, by: By) -> bool
        requires { i < self.now.n }
        ensures { result ≡ id_at by self.now.bytes.now self.now.n i }
    {
        match by {
            By::Any => true,
            By::Send(id) => self.bytes[4 + i] == id,
            By::Recv(id) => self.bytes[4 + self.n + i] == id,
        }
    }

    // Whether the entry can match: by its prefix length and mark, its ports, and the first bits of its remote address.
    #[tactic(auto, unfolding(crate::specs::Scan::nearby))]
    fn nearby(&self, i: usize, w: &Wanted) -> bool
        requires { i < self.now.n }
        ensures { result ≡ nearby_of self.now.bytes.now self.now.n w.now i }
    {
        let bits = self.bytes[4 + 2 * self.n + i];
        if !can_match(bits, self.bytes[4 + 3 * self.n + i], w) {
            return false;
        }
        let slot = self.slot(i);
        slot.port_in(16, w.remote) && slot.port_in(20, w.local) && slot.near_front(bits, w.high)
    }

    // Whether its addresses agree, the remote one behind its first bits. Few entries come so far, so this is apart from the loop.
    #[inline(never)]
    #[tactic(auto, unfolding(crate::specs::Scan::alike))]
    fn alike(&self, i: usize, w: &Wanted) -> bool
        requires { i < self.now.n }
        ensures { result ≡ alike_of self.now.bytes.now self.now.n w.now i }
    {
        let slot = self.slot(i);
        slot.near_back(
            self.bytes[4 + 2 * self.n + i],
            self.bytes[4 + 3 * self.n + i],
            w,
        ) && near_local(slot.bytes[0], self.back(i), w.upper, w.lower)
    }

    // Whether it has the ID, which is looked at first, and can match by all that is stored in the columns and the slot.
    #[tactic(auto, unfolding(crate::specs::Scan::candidate, crate::specs::Scan::close))]
    fn candidate(&self, i: usize, by: By, w: &Wanted) -> bool
        requires { i < self.now.n }
        ensures { result ≡ candidate_of by self.now.bytes.now self.now.n w.now i }
    {
        self.has_id(i, by) && self.nearby(i, w) && self.alike(i, w)
    }

    // The 32 bytes of a column from `at` on.
    fn column(&self, at: usize) -> &'a [u8]
        requires { at + 32 ≤ length self.now.bytes.now }
        ensures { (result.now ≡ take 32 (drop at self.now.bytes.now)) × (length result.now ≡ 32) }
    {
        &self.bytes[at..at + BLOCK]
    }

    // Whether some entry of the block that begins with entry i may be a candidate, by the columns.
    fn some_in_block(&self, i: usize, by: By, w: &Wanted) -> bool
        requires { i + 32 ≤ self.now.n }
        ensures { NoneIn (candidate_of by self.now.bytes.now self.now.n w.now) i result }
    {
        let bits = self.column(4 + 2 * self.n + i);
        let marks = self.column(4 + 3 * self.n + i);
        match by {
            By::Any => some_can_match(bits, marks, w),
            By::Send(id) => some_named_can_match(self.column(4 + i), id, bits, marks, w),
            By::Recv(id) => some_named_can_match(self.column(4 + self.n + i), id, bits, marks, w),
        }
    }

    // The first candidate from entry `from` on and before `end`.
    fn scan(&self, from: usize, end: usize, by: By, w: &Wanted) -> Option<usize>
        requires { (from ≤ end) × (end ≤ self.now.n) }
        ensures first { First (candidate_of by self.now.bytes.now self.now.n w.now) from end (unwrap_or result end) }
        ensures inside { IfSome result (λ i. i < end) }
    {
        for i in from..end {
            if self.candidate(i, by, w) {
                return Some(i);
            }
        }
        None
    }

    // `scan` of the block that begins with entry i: most blocks have none.
    fn scan_block(&self, i: usize, by: By, w: &Wanted) -> Option<usize>
        requires { i + 32 ≤ self.now.n }
        ensures first { First (candidate_of by self.now.bytes.now self.now.n w.now) i (i + 32) (unwrap_or result (i + 32)) }
        ensures inside { IfSome result (λ r. r < i + 32) }
    {
        if !self.some_in_block(i, by, w) {
            return None;
        }
        self.scan(i, i + BLOCK, by, w)
    }

    // `scan`, a block at a time.
    fn next(&self, from: usize, end: usize, by: By, w: &Wanted) -> Option<usize>
        requires { (from ≤ end) × (end ≤ self.now.n) }
        ensures first { First (candidate_of by self.now.bytes.now self.now.n w.now) from end (unwrap_or result end) }
        ensures inside { IfSome result (λ i. i < end) }
    {
        let mut i = from;
        // Kept (proof): of a `for` over a range's `step_by` it stays open that it ends.
        while BLOCK <= end - i {
            if let Some(r) = self.scan_block(i, by, w) {
                return Some(r);
            }
            i += BLOCK;
        }
        self.scan(i, end, by, w)
    }

    // Whether entry i matches the pair.
    fn matches_at(&self, i: usize, pair: Pair) -> bool
        requires { i < self.now.n }
        ensures { result
            ≡ matches_of (clean_selector (raw_selector (front_at_lem self.now.bytes.now self.now.n i)
            (back_at self.now.bytes.now self.now.n i))) pair }
    {
        matches(self.raw(i).selector(), pair)
    }

    // The first entry from `first` on and before `end` that has the ID and matches the pair.
    fn search(&self, first: usize, end: usize, by: By, pair: Pair) -> Option<usize>
        requires { (first ≤ end) × (end ≤ self.now.n) }
        ensures first { First (hit_of by pair self.now.bytes.now self.now.n) first end (unwrap_or result end) }
        ensures inside { IfSome result (λ i. i < end) }
    {
        let wanted = Wanted::of(pair);
        let mut from = first;
        while let Some(i) = self.next(from, end, by, &wanted) {
            if self.matches_at(i, pair) {
                return Some(i);
            }
            from = i + 1;
        }
        None
    }

    // What a search of the entries of a kind gives, `count` from `first` on. MD5 entries have no IDs that a search could ask for.
    fn find(&self, kind: TableKind, first: usize, count: usize, by: By, pair: Pair) -> Option<Hit>
        requires { (first + count ≤ self.now.n) × Asks kind by }
        ensures { found_of result ≡ found (answers by pair) 0 (stored_from kind self.now.bytes.now self.now.n first count) }
    {
        let i = self.search(first, first + count, by, pair)?;
        Some(Hit {
            index: i - first,
            entry: self.raw(i).entry(kind),
        })
    }
}

// How many key entries and MD5 entries a table has that fits.
#[tactic(auto, unfolding(crate::specs::Prepared::fits))]
fn counts(t: &[u8]) -> Option<(usize, usize)>
    ensures { MatchOption result (fits_of t.now ≡ false)
        (λ c. (fits_of t.now ≡ true) × (c.0 ≡ key_count_of t.now) × (c.1 ≡ md5_count t.now)) }
{
    if t.len() < 4 {
        return None;
    }
    let n = load16(t, 0) as usize;
    let m = load16(t, 2) as usize;
    if MAX_ENTRIES < n || MAX_ENTRIES < m || t.len() != 4 + 129 * (n + m) {
        return None;
    }
    Some((n, m))
}

// Whether the counts and the length are such as preparing gives; if not, the table is refused with 44.
pub fn fits(t: &[u8]) -> bool
    ensures { result ≡ fits_of t.now }
{
    counts(t).is_some()
}

// How many key entries a table has that fits; 0 where it does not.
pub fn key_count(t: &[u8]) -> usize
    ensures { result ≡ length (key_part t.now) }
{
    match counts(t) {
        Some((n, _)) => n,
        None => 0,
    }
}

// The first key entry that answers.
pub fn find_key(t: &[u8], pair: Pair, by: By) -> Option<Hit>
    ensures { found_of result ≡ found (answers by pair) 0 (key_part t.now) }
{
    let (n, m) = counts(t)?;
    let stored = Stored { bytes: t, n: n + m };
    stored.find(TableKind::Keys, 0, n, by, pair)
}

// The first MD5 entry that matches the pair.
pub fn find_md5(t: &[u8], pair: Pair) -> Option<Hit>
    ensures { found_of result ≡ found (answers Any pair) 0 (md5_part t.now) }
{
    let (n, m) = counts(t)?;
    let stored = Stored { bytes: t, n: n + m };
    stored.find(TableKind::Md5, n, m, By::Any, pair)
}
