// Which number signing gives, or what the segment is signed by: document 01, "Numbers given back", 30 to 37, behind 18 and the table's. One
// function for each group of the crate `rules`: the first of its tests that applies is the error. Behind 30 the header is read once, and
// the tests take what was read. Assumes nothing.
ghost use Rattle.std.specs.Prelude.{◌+◌, ◌≡◌, [], ◌∷◌, ◌++◌, ltb, cond, Ok};
ghost use Rattle.std.specs.Result.{result_and};
ghost use Rattle.octets.specs.Tests.{tests, checked};
ghost use Rattle.keys.specs.Table.{found_of};
ghost use Rattle.rules.specs.Segment.{option_bytes, md5_option_bytes};
ghost use Rattle.rules.specs.Connection.{is_md5_of, value};
ghost use Rattle.rules.specs.Calls.{refuse as refuse_of};
ghost use Rattle.checks.specs.SignGroups.{input_tests, fresh_lines, growth_lines, segment_lines, place_lines, output_lines};
ghost use Rattle.checks.specs.SignGroups.{signed, granted_of};

use crate::faults::{
    bare_syn, family_faults, port_faults, refuse, refuse_where, stage_faults, table_faults,
};
use crate::segment::SizedSegment;
use keys::entry::Secret;
use keys::table::Hit;
use rules::{Connection, Outcome, State};
use states::position::place_on;
use states::writers::is_md5;
use tables::LentTables;
use wire::header::Header;
use wire::options::Seen;

// What a segment is signed by, where no number is given: its position, how many bytes are added to it, and the outgoing key's secret.
#[derive(Clone, Copy)]
pub struct Granted {
    pub position: u64,
    pub added: u16,
    pub secret: Secret,
}

// The bytes that signing with a MAC of n bytes adds: TCP-AO, padded to whole words.
pub fn added_bytes(n: u8) -> u16
    ensures { result ≡ option_bytes n }
{
    (4 + n as u16).next_multiple_of(4)
}

// Ticket 9: by MD5 its option and two kind 1 bytes.
pub fn added_on(conn: Connection, n: u8) -> u16
    ensures { result ≡ cond (is_md5_of conn) md5_option_bytes (option_bytes n) }
{
    if is_md5(conn) { 20 } else { added_bytes(n) }
}

// 18, the table and 30: the segment, sized.
pub fn input_faults<'a>(
    tables: &LentTables<'_>,
    segment: &'a [u8],
    conn: Connection,
) -> Result<SizedSegment<'a>, Outcome>
    ensures { result ≡ result_and (checked (input_tests tables.now segment.now conn)) (Ok segment.now) }
{
    family_faults(conn)?;
    table_faults(tables)?;
    SizedSegment::read(segment, 30)
}

// 31: "malformed, or TCP-AO or MD5 present".
fn fresh_faults(options: Option<Seen>) -> Result<(), Outcome>
    ensures { result ≡ checked (fresh_lines options) }
{
    let seen = options.ok_or(refuse(31))?;
    refuse_where(0 < seen.ao.count || 0 < seen.md5.count, 31)
}

// 32, given when the data offset "would pass 15 or the result 65,535 bytes". A header has at most 60 bytes. No sum is made of what was
// read, so none wraps.
fn growth_faults(added: u16, end: usize, len: usize) -> Result<(), Outcome>
    ensures { result ≡ checked (growth_lines added end len) }
{
    let more = added as usize;
    let fits = more <= 60 && end <= 60 - more && len <= 65535 - more;
    refuse_where(!fits, 32)
}

// 33: "ports not the state's"; 34: "wrong segment for the stage". Open: a bare SYN; opening: anything else.
fn segment_faults(conn: Connection, header: Header) -> Result<(), Outcome>
    ensures { result ≡ checked (segment_lines conn header) }
{
    port_faults(33, header, conn.pair.local_port, conn.pair.remote_port)?;
    stage_faults(34, conn, header, bare_syn(header))
}

// 36: "no position, or a SYN (bare or with ACK) whose position is not our ISN"; else the position.
fn place_faults(conn: Connection, place: Option<u64>, syn: bool) -> Result<u64, Outcome>
    ensures { result ≡ result_and (checked (place_lines conn place syn)) (Ok (value place)) }
{
    let x = place.ok_or(refuse(36))?;
    refuse_where(syn && x != conn.isn as u64, 36)?;
    Ok(x)
}

// 37: "output too short".
fn room_faults(room: usize, added: u16, len: usize) -> Result<(), Outcome>
    ensures { result ≡ checked (tests (refuse_of 37) (ltb room (len + added) ∷ [])) }
{
    let more = added as usize;
    refuse_where(room < more || room - more < len, 37)
}

// 31, 33 to 35, 32, 36 and 37, behind the input's; else the position. `added` is what signing adds under the outgoing key's entry, `there`
// whether there is one, `room` the output's length.
pub fn sign_faults(
    room: usize,
    added: u16,
    there: bool,
    state: State,
    header: Header,
) -> Result<u64, Outcome>
    ensures { result ≡ signed room added there state header }
{
    let conn = state.conn;
    fresh_faults(header.options)?;
    segment_faults(conn, header)?;
    refuse_where(!there, 35)?;
    growth_faults(added, header.end, header.len)?;
    let place = place_on(conn, state.sent, header.sequence);
    let position = place_faults(conn, place, header.syn)?;
    room_faults(room, added, header.len)?;
    Ok(position)
}

// The secret of the entry found; without one that of no entry, under which nothing is signed: 35.
#[tactic(auto, unfolding(keys::specs::Table::nobody))]
fn secret_of(found: Option<Hit>) -> Secret
    ensures { result ≡ (found_of found).entry.secret }
{
    match found {
        Some(hit) => hit.entry.secret,
        None => Secret {
            flags: 0,
            algorithm: 0,
            mac_bytes: 0,
            key_len: 0,
            key: [0; 80],
        },
    }
}

// The same tests under the entry found for the outgoing key, with what its option adds; else what the segment is signed by.
#[tactic(auto, using(crate::proofs::Keyed::there_is))]
pub fn grant(
    room: usize,
    found: Option<Hit>,
    state: State,
    header: Header,
) -> Result<Granted, Outcome>
    ensures { result ≡ granted_of room (found_of found) state header }
{
    let secret = secret_of(found);
    let added = added_on(state.conn, secret.mac_bytes);
    let position = sign_faults(room, added, found.is_some(), state, header)?;
    Ok(Granted {
        position,
        added,
        secret,
    })
}
