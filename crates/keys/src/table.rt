// A table as a whole, the key table or the MD5 table: the loader with its numbers 10 to 17, and the searches. Document 01, "Key table
// (house bytes)" and "Numbers given back"; document 02, Ticket 9.
// Any bytes are a table. Entries before another are read again from their bytes, their IDs first, so that no array of them is kept.
ghost use Rattle.std.specs.Prelude.{true, false, ◌≡◌, ◌||◌, [], ◌∷◌, ◌≤◌, ◌<◌, length, take, drop, get_or, slice_set, Ok, Err, MatchResult};
ghost use Rattle.octets.specs.Each.{Each};
ghost use Rattle.octets.specs.Tests.{checked};
ghost use Rattle.keys.specs.Entry.{size, item, entries};
ghost use Rattle.keys.specs.Match.{clash};
ghost use Rattle.keys.specs.Table.{kind_listed_of, item_tests, clashing, loaded};
ghost use Rattle.keys.specs.Marks.{Marked};
ghost use Rattle.keys.specs.Table.{found, found_of, any_of, has_id_of, answers, meets, meets_any_of, place_of};

use crate::entry::{Entry, EntryBytes, Ids, Pair, Selector, known_kind, plain_kind};
use crate::faults::entry_faults;
use crate::matching::{matches, overlaps, shares};
use std::marker::Model;

// Which table: document 01's, or document 02's of RFC 2385, whose entries are of kinds 4 and 6, with flags 0, algorithm 19 and both IDs 0.
#[derive(Clone, Copy, PartialEq, Eq, Debug)]
pub enum TableKind {
    Keys,
    Md5,
}

// What the loader refuses a table with: a number, at the entry of an index.
// Kept (no plainer): beside `tables::Refusal`, whose index says which of two tables; one type over its index would be longer in each use.
#[derive(Clone, Copy, PartialEq, Eq, Debug)]
pub struct Fault {
    pub number: u8,
    pub index: usize,
}

// What a search asks of an entry that matches the pair: nothing more, its SendID, or its RecvID.
#[derive(Clone, Copy, PartialEq, Eq, Debug)]
pub enum By {
    Any,
    Send(u8),
    Recv(u8),
}

impl By {
    fn accepts(self, ids: Ids) -> bool
        ensures { result ≡ has_id_of self ids }
    {
        match self {
            By::Any => true,
            By::Send(id) => ids.send == id,
            By::Recv(id) => ids.recv == id,
        }
    }
}

// An entry that a search found, and where it stands among the table's.
#[derive(Clone, Copy)]
pub struct Hit {
    pub index: usize,
    pub entry: Entry,
}

// The entries of a table's bytes one after another, up to the first that is not whole or of no known kind. In contracts it is the list of
// those that are left.
#[derive(Drop)]
pub struct Entries<'a> {
    rest: &'a [u8],
}

impl<'a> Model for Entries<'a> {
    ghost use Rattle.std.specs.Prelude.{List};
    ghost use Rattle.keys.specs.declared.entry.Entry.{Entry};
    ghost use Rattle.keys.specs.Entry.{entries};

    ghost Value = { List Entry };

    ghost view = { λ s. entries s.rest.now };
}

impl<'a> Entries<'a> {
    pub fn of(table: &'a [u8]) -> Entries<'a>
        ensures all { result ≡ entries table.now }
        ensures few { length result ≤ length table.now }
    {
        Entries { rest: table }
    }
}

impl<'a> Iterator for Entries<'a> {
    ghost use Rattle.std.specs.Iterator.{YieldsFirst, item_count};

    type Item = EntryBytes<'a>;

    ghost next_gives = { YieldsFirst (λ s. s) };

    ghost remaining = { item_count (λ s. s) };

    fn next(&mut self) -> Option<EntryBytes<'a>> {
        let (entry, rest) = EntryBytes::split_first(self.rest)?;
        self.rest = rest;
        Some(entry)
    }
}

// Whether an entry clashes with another. The IDs mostly decide.
#[tactic(auto, unfolding(crate::specs::Match::clash))]
fn clashes(entry: &EntryBytes<'_>, e: Entry) -> bool
    ensures { result ≡ clash entry.now e }
{
    shares(entry.ids(), e.ids) && overlaps(entry, e.selector)
}

// Whether one of the first i entries clashes with e.
fn clashes_before(table: &[u8], i: usize, e: Entry) -> bool
    ensures { result ≡ clashing e (take i (entries table.now)) }
{
    Entries::of(table).take(i).any(|entry| clashes(&entry, e))
}

// Whether a table of the kind has entries that begin with this byte: an MD5 table has none of kinds 5 and 7.
#[tactic(auto, unfolding(crate::specs::Entry::item))]
fn kind_listed(kind: TableKind, first: u8) -> bool
    ensures { result ≡ kind_listed_of kind (item (first ∷ [])) }
{
    match kind {
        TableKind::Keys => known_kind(first),
        TableKind::Md5 => plain_kind(first),
    }
}

// Which SendIDs and RecvIDs the entries passed have: an entry that shares neither clashes with none of them.
#[derive(Drop)]
struct Marks {
    sends: [bool; 256],
    recvs: [bool; 256],
}

impl Marks {
    // Whether one of the IDs is marked.
    fn share(&self, ids: Ids) -> bool
        ensures { result ≡ (get_or self.now.sends ids.send false || get_or self.now.recvs ids.recv false) }
    {
        self.sends[ids.send as usize] || self.recvs[ids.recv as usize]
    }

    fn mark(&mut self, ids: Ids)
        ensures { self.new ≡ record { sends = slice_set self.old.sends ids.send true; recvs = slice_set self.old.recvs ids.recv true } }
    {
        self.sends[ids.send as usize] = true;
        self.recvs[ids.recv as usize] = true;
    }
}

// The entry that `rest` begins with, its IDs and the bytes behind it, where none of 11, 10 and 13 to 17 applies to it. It is behind the
// first i entries of the table, whose IDs are marked.
fn check_first<'a>(
    rest: &'a [u8],
    kind: TableKind,
    table: &[u8],
    i: usize,
    marks: &Marks,
) -> Result<(Ids, &'a [u8]), u8>
    requires some { 0 < length rest.now }
    requires marked { Each (Marked marks.now) (take i (entries table.now)) }
    ensures { MatchResult result
        (λ p. (checked (item_tests kind (take i (entries table.now)) (item rest.now)) ≡ Ok tt)
        × (p.0 ≡ (item rest.now).entry.ids)
        × (p.1.now ≡ drop (size (get_or rest.now 0 0)) rest.now))
        (λ n. checked (item_tests kind (take i (entries table.now)) (item rest.now)) ≡ Err n) }
{
    if !kind_listed(kind, rest[0]) {
        return Err(11);
    }
    let Some((first, behind)) = EntryBytes::split_first(rest) else {
        return Err(10);
    };
    let entry = first.entry();
    entry_faults(kind, entry)?;
    if marks.share(entry.ids) && clashes_before(table, i, entry) {
        return Err(17);
    }
    Ok((entry.ids, behind))
}

// The table's answer where so many entries are allowed.
pub fn load(table: &[u8], limit: usize, kind: TableKind) -> Result<usize, Fault>
    ensures { result ≡ loaded kind limit table.now }
{
    let mut marks = Marks {
        sends: [false; 256],
        recvs: [false; 256],
    };
    let mut rest = table;
    let mut index = 0;
    // Kept (no plainer): `Entries` ends at an entry that is not whole, where 12, 11 and 10 are still told apart: a `for` asks them twice.
    while !rest.is_empty() {
        if index == limit {
            return Err(Fault { number: 12, index });
        }
        match check_first(rest, kind, table, index, &marks) {
            Err(number) => return Err(Fault { number, index }),
            Ok((ids, behind)) => {
                marks.mark(ids);
                rest = behind;
                index += 1;
            },
        }
    }
    Ok(index)
}

// Whether an entry has the ID and matches the pair.
#[tactic(auto, unfolding(crate::specs::Table::answers))]
fn answers_to(entry: &EntryBytes<'_>, pair: Pair, by: By) -> bool
    ensures { result ≡ answers by pair entry.now }
{
    by.accepts(entry.ids()) && matches(entry.selector(), pair)
}

// The first entry that answers.
pub fn find(table: &[u8], pair: Pair, by: By) -> Option<Hit>
    ensures { found_of result ≡ found (answers by pair) 0 (entries table.now) }
{
    Entries::of(table)
        .enumerate()
        .find(|(_, entry)| answers_to(entry, pair, by))
        .map(|(index, entry)| Hit {
            index,
            entry: entry.entry(),
        })
}

// How many entries the bytes have, up to the first that is not whole or not of a known kind.
pub fn count(table: &[u8]) -> usize
    ensures { result ≡ length (entries table.now) }
{
    Entries::of(table).count()
}

// Whether some entry matches a pair that the selector matches too.
fn meets_any(table: &[u8], s: Selector) -> bool
    ensures { result ≡ any_of (meets s) (entries table.now) }
{
    Entries::of(table).any(|entry| overlaps(&entry, s))
}

// The first entry of `table` that matches a pair which some entry of `others` matches too.
pub fn find_meeting(table: &[u8], others: &[u8]) -> Option<usize>
    ensures { result ≡ place_of (found (meets_any_of (entries others.now)) 0 (entries table.now)) }
{
    Entries::of(table).position(|entry| meets_any(others, entry.selector()))
}
