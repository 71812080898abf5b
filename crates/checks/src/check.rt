// Which number an arriving segment gets, or its position: document 01, "Numbers given back", with a state and without one. Nothing here
// writes a state. The two checks assume nothing. What a step assumes is what the tests before it left.
ghost use Rattle.std.specs.Prelude.{◌≡◌, ◌≤◌, true, false, cond, ◌||◌};
ghost use Rattle.keys.specs.Table.{found_of};
ghost use Rattle.tables.specs.Tables.{recv_entry};
ghost use Rattle.rules.specs.Connection.{sized, arrival_pair_of, is_open_of};
ghost use Rattle.rules.specs.Calls.{is_refused, refuse as refuse_of, check as check_of, check_syn_of};
ghost use Rattle.rules.specs.declared.Outcome.TheVariants.{Passed};
ghost use Rattle.traffic.specs.Flow.{flow_of};
ghost use Rattle.checks.specs.Groups.{arriving_on};
ghost use Rattle.checks.specs.Begin.{Judges, JudgesSyn};

use crate::begun::{Begun, by_key, by_md5, finished};
use crate::faults::{early_faults, early_syn_faults, formed_faults, formed_syn_faults, refuse};
use keys::entry::Pair;
use keys::table::Hit;
use rules::{Connection, LentArrival, Outcome};
use states::position::place_on;
use states::writers::{is_md5, is_open, pair_of};
use tables::LentTables;
use traffic::flow::Flow;

// The flow of what arrives on a pair: its source is our remote side.
fn arriving_flow(pair: Pair, source_isn: u32, destination_isn: u32) -> Flow
    ensures { flow_of result ≡ arriving_on pair source_isn destination_isn }
{
    let source = pair.remote;
    let destination = pair.local;
    Flow {
        family: pair.family,
        source,
        destination,
        source_port: pair.remote_port,
        destination_port: pair.local_port,
        source_isn,
        destination_isn,
    }
}

// The ISN of whoever sent a segment: "its sequence number is the peer's ISN" of the SYN+ACK that opens.
fn peer_isn(conn: Connection, number: u32) -> u32
    ensures { result ≡ cond (is_open_of conn) conn.peer_isn number }
{
    if is_open(conn) { conn.peer_isn } else { number }
}

// The entry that matches the pair and has the KeyID as its RecvID. In tables that are not refused its MAC has at most 16 bytes: that they
// are those of some bytes is what `parts` says.
fn entry_for(tables: &LentTables<'_>, pair: Pair, id: u8) -> Option<Hit>
    ensures entry { found_of result ≡ recv_entry tables.now pair id }
    ensures short { is_refused tables.now.answer ≡ false → (found_of result).entry.secret.mac_bytes ≤ 16 }
{
    let _ = tables.parts();
    tables.find_recv(pair, id)
}

// With a state, opening or open: every test but 29. "A connection goes by the way it was opened and never accepts the other".
// Kept (no plainer): parameters one by one: tables and arrival are structs already, of two owners, and conn is a part of the state.
pub fn begin(
    tables: &LentTables<'_>,
    arrival: &LentArrival<'_>,
    conn: Connection,
    reference: u64,
) -> Result<Begun, Outcome>
    ensures { Judges tables.now conn reference arrival.now result }
{
    let segment = early_faults(tables, arrival, conn)?;
    let header = segment.header();
    formed_faults(conn, arrival, header)?;
    let flow = arriving_flow(conn.pair, peer_isn(conn, header.sequence), conn.isn);
    if is_md5(conn) {
        return by_md5(tables.find_md5(conn.pair), flow, &segment);
    }
    by_key(
        refuse(25),
        refuse(26),
        entry_for(tables, conn.pair, segment.key_id()),
        flow,
        place_on(conn, reference, header.sequence),
        &segment,
    )
}

// The whole of it.
pub fn check(
    tables: &LentTables<'_>,
    arrival: &LentArrival<'_>,
    conn: Connection,
    reference: u64,
) -> Outcome
    ensures { result ≡ check_of tables.now conn reference arrival.now }
{
    match begin(tables, arrival, conn, reference) {
        Ok(begun) => finished(begun, arrival.segment),
        Err(outcome) => outcome,
    }
}

// What a bare SYN gets that has no TCP-AO: "25 if any entry matches the pair, otherwise pass".
fn syn_missing(matched: bool) -> Outcome
    ensures { result ≡ cond matched (refuse_of 25) Passed }
{
    if matched { refuse(25) } else { Outcome::Passed }
}

// What it gets where no entry has its KeyID: document 02, Ticket 2.
fn syn_unknown(matched: bool, strict: bool) -> Outcome
    ensures { result ≡ cond (matched || strict) (refuse_of 26) Passed }
{
    if matched || strict {
        refuse(26)
    } else {
        Outcome::Passed
    }
}

// The pair of what arrives, as this end holds it.
pub fn arrival_pair(arrival: &LentArrival<'_>) -> Pair
    requires { sized arrival.now.source arrival.now.destination ≡ true }
    ensures { result ≡ arrival_pair_of arrival.now }
{
    pair_of(
        arrival.destination,
        arrival.source,
        wire::header::destination_port(arrival.segment),
        wire::header::source_port(arrival.segment),
    )
}

// A bare SYN, without a state: every test but 29, with the way and the IDs of the entry that was found. Ticket 9: "a bare SYN without one
// by the table that matches, else as before". "For a bare SYN .. the destination ISN is zero", and it has "[its] own number as position".
// Kept (no plainer): parameters one by one: tables and arrival are structs already, of two owners, and strict is the caller's setting.
pub fn begin_syn(
    tables: &LentTables<'_>,
    arrival: &LentArrival<'_>,
    strict: bool,
) -> Result<Begun, Outcome>
    ensures { JudgesSyn tables.now arrival.now strict result }
{
    let segment = early_syn_faults(tables, arrival)?;
    let header = segment.header();
    formed_syn_faults(header)?;
    let pair = arrival_pair(arrival);
    let flow = arriving_flow(pair, header.sequence, 0);
    let by_pair = tables.find_md5(pair);
    if by_pair.is_some() {
        return by_md5(by_pair, flow, &segment);
    }
    let matched = tables.any_match(pair);
    by_key(
        syn_missing(matched),
        syn_unknown(matched, strict),
        entry_for(tables, pair, segment.key_id()),
        flow,
        Some(header.sequence as u64),
        &segment,
    )
}

// The whole of it.
pub fn check_syn(tables: &LentTables<'_>, arrival: &LentArrival<'_>, strict: bool) -> Outcome
    ensures { result ≡ check_syn_of tables.now arrival.now strict }
{
    match begin_syn(tables, arrival, strict) {
        Ok(begun) => finished(begun, arrival.segment),
        Err(outcome) => outcome,
    }
}
