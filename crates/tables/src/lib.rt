// What calls ask of the tables lent to them: the key table and, beside it, the MD5 table of document 02, Ticket 9; or both in one prepared
// table, Ticket 8. Any bytes may come as either.
#![tactic(auto)]

ghost use Rattle.std.specs.Prelude.{◌≡◌, length};
ghost use Rattle.keys.specs.Entry.{entries};
ghost use Rattle.keys.specs.Table.{found, found_of, answers};
ghost use Rattle.tables.specs.Tables.{Tables, crossing, after_crossing, besides, admitted, bytes_tables, prepared_answer, no_index};
ghost use Rattle.tables.specs.Tables.{tables_in, tables_of};
ghost use Rattle.tables.specs.Tables.{send_entry, recv_entry, any_entry, md5_entry};
ghost use Rattle.tables.specs.Preparing.{prepare_answer, prepare_output};

use keys::entry::Pair;
use keys::table::{By, Fault, Hit, TableKind, load};
use prepared::stored::MAX_ENTRIES;
use std::marker::Model;

// The form of two buffers that are the tables' own bytes.
// Kept (C interface): the form is a number in C's calls; from `new` on it is a variant of `Form`.
pub const BYTES: u8 = 0;

// One form of all the others, which are a prepared table's.
// Kept (C interface): a number of the form, as BYTES.
const PREPARED: u8 = 1;

// Which entry a number of the tables names: table 0 is the key table, table 1 the MD5 table; entries are counted from 0.
// Kept (C interface): the table is the number that C finds in a result's bits.
#[derive(Clone, Copy, PartialEq, Eq, Debug)]
pub struct Index {
    pub table: u8,
    pub entry: usize,
}

// What refuses a call: a number of documents 01 and 02, with the entry that it names beside 10 to 17 and 45, and zeros beside every other.
#[derive(Clone, Copy, PartialEq, Eq, Debug)]
pub struct Refusal {
    pub number: u8,
    pub index: Index,
}

#[derive(Clone, Copy, PartialEq, Eq)]
enum Form {
    Bytes,
    Prepared,
}

// The two buffers that a call is lent: a key table's bytes and an MD5 table's, or a prepared table and no bytes. A contract sees what they
// mean.
#[derive(Drop)]
pub struct LentTables<'a> {
    form: Form,
    keys: &'a [u8],
    md5: &'a [u8],
}

impl<'a> Model for LentTables<'a> {
    ghost Value = { Tables };

    ghost view = { λ t. tables_in t.form t.keys.now t.md5.now };
}

impl Refusal {
    // A number that names an entry.
    // Kept (C interface): the table is a number, as `Index` holds it for C.
    fn at(number: u8, table: u8, entry: usize) -> Self
        ensures { result ≡ record { number = number; index = record { table = table; entry = entry } } }
    {
        Refusal {
            number,
            index: Index { table, entry },
        }
    }

    // What refuses a table by itself, 0 the key table and 1 the MD5 table.
    pub fn in_table(table: u8, fault: Fault) -> Self
        ensures { result ≡ record { number = fault.number; index = record { table = table; entry = fault.index } } }
    {
        Refusal::at(fault.number, table, fault.index)
    }

    // A number that names none.
    pub fn of(number: u8) -> Self
        ensures { result ≡ record { number = number; index = no_index } }
    {
        Refusal::at(number, 0, 0)
    }
}

// 45, where each table by itself is valid and the key table has n entries.
// Kept (may not change): n is a parameter beside the tables, as `after_crossing` and `besides` of specs/Tables hand it on.
fn check_crossing(keys: &[u8], md5: &[u8], n: usize) -> Result<usize, Refusal>
    ensures { result ≡ after_crossing (crossing (entries keys.now) (entries md5.now)) n }
{
    match keys::table::find_meeting(md5, keys) {
        Some(i) => Err(Refusal::at(45, 1, i)),
        None => Ok(n),
    }
}

// The MD5 table's refusals, then 45. Where it has no bytes, nothing is compared.
#[tactic(auto, using(crate::proofs::Checked::besides_empty), unfolding(crate::specs::Tables::besides))]
fn check_md5(keys: &[u8], md5: &[u8], n: usize) -> Result<usize, Refusal>
    ensures { result ≡ besides keys.now md5.now n }
{
    if md5.is_empty() {
        return Ok(n);
    }
    load(md5, MAX_ENTRIES, TableKind::Md5).map_err(|fault| Refusal::in_table(1, fault))?;
    check_crossing(keys, md5, n)
}

// The key table's refusals, then what stands behind them.
#[tactic(auto, unfolding(crate::specs::Tables::admitted))]
fn check_bytes(keys: &[u8], md5: &[u8]) -> Result<usize, Refusal>
    ensures { result ≡ admitted keys.now md5.now }
{
    let n = load(keys, MAX_ENTRIES, TableKind::Keys).map_err(|fault| Refusal::in_table(0, fault))?;
    check_md5(keys, md5, n)
}

// 44, or how many key entries a prepared table has.
#[tactic(auto, using(prepared::specs::ReadLaws::counted), unfolding(crate::specs::Tables::prepared_answer))]
fn check_prepared(keys: &[u8], md5: &[u8]) -> Result<usize, Refusal>
    ensures { result ≡ prepared_answer keys.now md5.now }
{
    if !md5.is_empty() || !prepared::stored::fits(keys) {
        return Err(Refusal::of(44));
    }
    Ok(prepared::stored::key_count(keys))
}

impl<'a> LentTables<'a> {
    // Of the form's number as C gives it: 0 says that the two buffers are the tables' own bytes, any other value that `keys` is a prepared
    // table.
    // Kept (C interface): the form is the number that C gives, of which any byte may come.
    pub fn new(form: u8, keys: &'a [u8], md5: &'a [u8]) -> Self
        ensures { result ≡ tables_of form keys.now md5.now }
    {
        let form = if form == BYTES {
            Form::Bytes
        } else {
            Form::Prepared
        };
        LentTables { form, keys, md5 }
    }

    // The tables' own bytes.
    pub fn of_bytes(keys: &'a [u8], md5: &'a [u8]) -> Self
        ensures { result ≡ bytes_tables keys.now md5.now }
    {
        LentTables {
            form: Form::Bytes,
            keys,
            md5,
        }
    }

    // What was lent, as `new` takes it. A caller of another crate sees of the tables what they mean alone; that they are those of some
    // bytes, which bounds every index that they answer with, it has from here.
    pub fn parts(&self) -> (u8, &'a [u8], &'a [u8])
        ensures { self.now ≡ tables_of result.0 result.1.now result.2.now }
    {
        let form = match self.form {
            Form::Bytes => BYTES,
            Form::Prepared => PREPARED,
        };
        (form, self.keys, self.md5)
    }

    // What the tables answer, before a call's own numbers: how many key entries there are, or the refusal.
    #[tactic(auto, unfolding(crate::specs::Tables::prepared_tables))]
    pub fn check(&self) -> Result<usize, Refusal>
        ensures { result ≡ self.now.answer }
    {
        match self.form {
            Form::Bytes => check_bytes(self.keys, self.md5),
            Form::Prepared => check_prepared(self.keys, self.md5),
        }
    }

    // Kept (no plainer): beside find_md5: other buffers and another prepared search; a helper with two closures says more than two arms.
    #[tactic(auto, unfolding(crate::specs::Tables::prepared_tables))]
    fn find_key(&self, pair: Pair, by: By) -> Option<Hit>
        ensures { found_of result ≡ found (answers by pair) 0 self.now.keys }
    {
        match self.form {
            Form::Bytes => keys::table::find(self.keys, pair, by),
            Form::Prepared => prepared::stored::find_key(self.keys, pair, by),
        }
    }

    // The key entry that matches the pair and has the SendID.
    // Kept (no plainer): beside find_recv: both are find_key, by the ID that each is named after.
    pub fn find_send(&self, pair: Pair, id: u8) -> Option<Hit>
        ensures { found_of result ≡ send_entry self.now pair id }
    {
        self.find_key(pair, By::Send(id))
    }

    // The key entry that matches the pair and has the RecvID.
    pub fn find_recv(&self, pair: Pair, id: u8) -> Option<Hit>
        ensures { found_of result ≡ recv_entry self.now pair id }
    {
        self.find_key(pair, By::Recv(id))
    }

    // Whether a key entry matches the pair.
    #[tactic(auto, using(crate::proofs::Checked::any_is))]
    pub fn any_match(&self, pair: Pair) -> bool
        ensures { result ≡ any_entry self.now pair }
    {
        self.find_key(pair, By::Any).is_some()
    }

    // The MD5 entry that matches the pair.
    #[tactic(auto, unfolding(crate::specs::Tables::prepared_tables))]
    pub fn find_md5(&self, pair: Pair) -> Option<Hit>
        ensures { found_of result ≡ md5_entry self.now pair }
    {
        match self.form {
            Form::Bytes => keys::table::find(self.md5, pair, By::Any),
            Form::Prepared => prepared::stored::find_md5(self.keys, pair),
        }
    }
}

// Writes the prepared table of two tables' bytes at the output's front: its length, or the tables' refusal, or 37.
pub fn prepare(keys: &[u8], md5: &[u8], out: &mut [u8]) -> Result<usize, Refusal>
    ensures answer { result ≡ prepare_answer keys.now md5.now (length out.old) }
    ensures storage { out.new ≡ prepare_output keys.now md5.now out.old }
{
    let n = check_bytes(keys, md5)?;
    let m = keys::table::count(md5);
    let size = 4 + 129 * (n + m);
    if out.len() < size {
        return Err(Refusal::of(37));
    }
    prepared::image::put(keys, md5, n, m, out);
    Ok(size)
}
