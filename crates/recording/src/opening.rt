// The opening record: the connection just after opening, and what refuses it. Document 02, Ticket 1.
// Assumes that the record is there whole; its callers see to it.
ghost use Rattle.std.specs.Prelude.{◌≡◌, ◌≤◌, length};
ghost use Rattle.keys.specs.Entry.{is_family_of};
ghost use Rattle.recording.specs.Recording.{open_pair_of, open_state_of, open_outcome_of, opens_as};

use keys::entry::Pair;
use keys::table::TableKind;
use octets::padded;
use rules::State;
use tables::{LentTables, Refusal};

// "Ticket 1's program stays at 64 entries".
const DESK_ENTRIES: usize = 64;

// Of the ways of a connection, the state's `way`: the line is TCP-AO's.
const AO_WAY: u8 = 0;

fn open_pair(bytes: &[u8]) -> Pair
    requires { 48 ≤ length bytes.now }
    ensures { result ≡ open_pair_of bytes.now }
{
    Pair {
        family: bytes[1],
        local_port: octets::load16(bytes, 4),
        remote_port: octets::load16(bytes, 6),
        local: padded(&bytes[16..32]),
        remote: padded(&bytes[32..48]),
    }
}

#[tactic(auto, unfolding(keys::specs::Entry::is_family_of))]
fn is_family(family: u8) -> bool
    ensures { result ≡ is_family_of family }
{
    family == 4 || family == 6
}

// 18, the table's number, 35 for either ID: the first that applies.
pub(crate) fn check_opening(table: &[u8], bytes: &[u8]) -> Result<(), Refusal>
    requires { 48 ≤ length bytes.now }
    ensures { opens_as result ≡ open_outcome_of table.now bytes.now }
{
    let pair = open_pair(bytes);
    if !is_family(pair.family) {
        return Err(Refusal::of(18));
    }
    if let Err(fault) = keys::table::load(table, DESK_ENTRIES, TableKind::Keys) {
        return Err(Refusal::in_table(0, fault));
    }
    let tables = LentTables::of_bytes(table, &[]);
    if tables.find_send(pair, bytes[2]).is_none() || tables.find_recv(pair, bytes[3]).is_none() {
        return Err(Refusal::of(35));
    }
    Ok(())
}

pub(crate) fn open_state(bytes: &[u8]) -> State
    requires { 48 ≤ length bytes.now }
    ensures { result ≡ open_state_of bytes.now }
{
    states::writers::opened(
        AO_WAY,
        open_pair(bytes),
        octets::load32(bytes, 8),
        octets::load32(bytes, 12),
        bytes[2],
        bytes[3],
    )
}
