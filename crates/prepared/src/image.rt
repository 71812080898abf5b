// Writing a prepared table's bytes, from the bytes of two tables. Document 02, Ticket 8.
ghost use Rattle.std.specs.Prelude.{◌≡◌, ◌+◌, ◌*◌, ◌≤◌, [], ◌∷◌, ◌++◌, length};
ghost use Rattle.std.proofs.Math.Seq.{paste};
ghost use Rattle.keys.specs.Entry.{entries};
ghost use Rattle.prepared.specs.Parts.{part_of, part_bytes_of, put as put_of};
ghost use Rattle.prepared.specs.Prepared.{slot, ports_part, back, joined, prepared_bytes, max_entries, image};

use crate::mark::{mark_of, stored_address};
use keys::entry::Entry;
use keys::table::Entries;

// Kept (no plainer): six closures in place of this enum would each repeat the contract that `put_part` has once.
// The parts that an entry is stored in: a byte in each of four columns, a slot, a back.
#[derive(Clone, Copy)]
enum Part {
    Send,
    Recv,
    Bits,
    Mark,
    Slot,
    Back,
}

fn part_bytes(part: Part) -> usize
    ensures { result ≡ part_bytes_of part }
{
    match part {
        Part::Send => 1,
        Part::Recv => 1,
        Part::Bits => 1,
        Part::Mark => 1,
        Part::Slot => 24,
        Part::Back => 101,
    }
}

// Three runs of bytes, one behind the other.
fn put_three(out: &mut [u8], at: usize, a: &[u8], b: &[u8], c: &[u8])
    requires { at + (length a.now + (length b.now + length c.now)) ≤ length out.old }
    ensures { out.new ≡ put_of out.old at (a.now ++ (b.now ++ c.now)) }
{
    octets::copy_at(out, at, a);
    octets::copy_at(out, at + a.len(), b);
    octets::copy_at(out, at + a.len() + b.len(), c);
}

fn ports_of(e: Entry) -> [u8; 8]
    ensures { result ≡ ports_part e }
{
    let local = e.selector.local;
    let remote = e.selector.remote;
    let a = octets::bytes16(remote.low);
    let b = octets::bytes16(remote.high);
    let c = octets::bytes16(local.low);
    let d = octets::bytes16(local.high);
    [a[0], a[1], b[0], b[1], c[0], c[1], d[0], d[1]]
}

// An entry's slot; and how long it is.
fn put_slot(out: &mut [u8], at: usize, e: Entry)
    requires { at + 24 ≤ length out.old }
    ensures { (out.new ≡ put_of out.old at (slot e)) × (length (slot e) ≡ 24) }
{
    let family = e.selector.family;
    let head = [family];
    let whole = e.selector.remote.address;
    let a = stored_address(family, whole);
    let ports = ports_of(e);
    put_three(out, at, &head, &a, &ports);
}

// The same of its back.
fn put_back(out: &mut [u8], at: usize, e: Entry)
    requires { at + 101 ≤ length out.old }
    ensures { (out.new ≡ put_of out.old at (back e)) × (length (back e) ≡ 101) }
{
    let head = [
        e.secret.flags,
        e.secret.algorithm,
        e.secret.mac_bytes,
        e.secret.key_len,
        e.selector.local.bits,
    ];
    let a = e.selector.local.address;
    let k = e.secret.key;
    put_three(out, at, &head, &a, &k);
}

// A byte of an entry, in its column.
fn put_byte(out: &mut [u8], at: usize, x: u8)
    requires { at + 1 ≤ length out.old }
    ensures { out.new ≡ put_of out.old at (x ∷ []) }
{
    let one = [x];
    octets::copy_at(out, at, &one);
}

fn put_part(out: &mut [u8], at: usize, part: Part, e: Entry)
    requires { at + part_bytes_of part ≤ length out.old }
    ensures { (out.new ≡ put_of out.old at (part_of part e)) × (length (part_of part e) ≡ part_bytes_of part) }
{
    match part {
        Part::Send => put_byte(out, at, e.ids.send),
        Part::Recv => put_byte(out, at, e.ids.recv),
        Part::Bits => put_byte(out, at, e.selector.remote.bits),
        Part::Mark => {
            let a = e.selector.remote.address;
            put_byte(out, at, mark_of(e.selector.family, a))
        },
        Part::Slot => put_slot(out, at, e),
        Part::Back => put_back(out, at, e),
    }
}

// The part of each of a table's entries; and where they end.
fn put_parts(table: &[u8], part: Part, out: &mut [u8], at: usize) -> usize
    requires { at + part_bytes_of part * length (entries table.now) ≤ length out.old }
    ensures { (out.new ≡ put_of out.old at (joined (part_of part) (entries table.now)))
        × (length (joined (part_of part) (entries table.now)) ≡ part_bytes_of part * length (entries table.now))
        × (result ≡ at + part_bytes_of part * length (entries table.now)) }
{
    let size = part_bytes(part);
    let mut to = at;
    for entry in Entries::of(table) {
        put_part(out, to, part, entry.entry());
        to += size;
    }
    to
}

// The part of each entry of both tables; and where they end.
fn put_both(keys: &[u8], md5: &[u8], part: Part, out: &mut [u8], at: usize) -> usize
    requires { at + part_bytes_of part * (length (entries keys.now) + length (entries md5.now)) ≤ length out.old }
    ensures { (out.new
        ≡ put_of out.old at (joined (part_of part) (entries keys.now ++ entries md5.now)))
        × (length (joined (part_of part) (entries keys.now ++ entries md5.now))
        ≡ part_bytes_of part * (length (entries keys.now) + length (entries md5.now)))
        × (result ≡ at + part_bytes_of part * (length (entries keys.now) + length (entries md5.now))) }
{
    let keys_end = put_parts(keys, part, out, at);
    put_parts(md5, part, out, keys_end)
}

// The counts, the columns, the slots, the backs: n key entries and m MD5 entries.
pub fn put(keys: &[u8], md5: &[u8], n: usize, m: usize, out: &mut [u8])
    requires { (n ≡ length (entries keys.now)) × (m ≡ length (entries md5.now)) × (n ≤ max_entries) × (m ≤ max_entries)
        × (prepared_bytes (n + m) ≤ length out.old) }
    ensures { out.new ≡ paste out.old 0 (image (entries keys.now) (entries md5.now))
        (prepared_bytes (n + m)) }
{
    let a = octets::bytes16(n as u16);
    octets::copy_at(out, 0, &a);
    let b = octets::bytes16(m as u16);
    octets::copy_at(out, 2, &b);
    let recvs = put_both(keys, md5, Part::Send, out, 4);
    let bits = put_both(keys, md5, Part::Recv, out, recvs);
    let marks = put_both(keys, md5, Part::Bits, out, bits);
    let slots = put_both(keys, md5, Part::Mark, out, marks);
    let backs = put_both(keys, md5, Part::Slot, out, slots);
    put_both(keys, md5, Part::Back, out, backs);
}
