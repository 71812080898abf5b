// The tests that come before a key is looked at: document 01, "Numbers given back", 10 to 24, with 40 behind 20. One function for each
// group of the crate `rules`: the first of its tests that applies is the error. Assumes nothing.
ghost use Rattle.std.specs.Prelude.{◌≡◌, cond, not, ◌&&◌, ◌||◌, [], ◌∷◌, ◌++◌, eqb, Ok};
ghost use Rattle.std.specs.Result.{result_and};
ghost use Rattle.octets.specs.Tests.{test, tests, checked};
ghost use Rattle.rules.specs.Connection.{is_open_of};
ghost use Rattle.rules.specs.Calls.{refuse as refuse_of, family_tests, address_tests, table_tests, input_tests, state_tests, sum_tests};
ghost use Rattle.checks.specs.Groups.{intact_tests, option_tests, header_pair_tests, header_syn_tests, header_arrival_tests};

use crate::segment::SizedSegment;
use keys::entry::Pair;
use rules::{Connection, LentArrival, NO_INDEX, Outcome};
use states::writers::{is_address, is_open};
use tables::LentTables;
use wire::header::Header;
use wire::options::Seen;

// A number that names no entry.
pub(crate) fn refuse(number: u8) -> Outcome
    ensures { result ≡ refuse_of number }
{
    Outcome::Bad(number, NO_INDEX)
}

// One test: its number, where it applies.
pub(crate) fn refuse_where(applies: bool, number: u8) -> Result<(), Outcome>
    ensures { result ≡ checked (test (refuse_of number) applies ∷ []) }
{
    if applies { Err(refuse(number)) } else { Ok(()) }
}

// 10 to 17 and 45, with the entry's table and index.
pub fn table_faults(tables: &LentTables<'_>) -> Result<(), Outcome>
    ensures { result ≡ checked (table_tests tables.now) }
{
    tables.check()?;
    Ok(())
}

// 18: "state's family is neither IPv4 nor IPv6".
#[tactic(auto, unfolding(keys::specs::Entry::is_family_of))]
pub fn family_faults(conn: Connection) -> Result<(), Outcome>
    ensures { result ≡ checked (family_tests conn) }
{
    refuse_where(conn.pair.family != 4 && conn.pair.family != 6, 18)
}

// 19: "addresses not both 4 or both 16 bytes".
pub fn address_faults(a: &[u8], b: &[u8]) -> Result<(), Outcome>
    ensures { result ≡ checked (address_tests a.now b.now) }
{
    let sized = a.len() == 4 && b.len() == 4 || a.len() == 16 && b.len() == 16;
    refuse_where(!sized, 19)
}

// Without a state: 19, then the table's number.
fn input_faults(tables: &LentTables<'_>, arrival: &LentArrival<'_>) -> Result<(), Outcome>
    ensures { result ≡ checked (input_tests tables.now arrival.now.source arrival.now.destination) }
{
    address_faults(arrival.source, arrival.destination)?;
    table_faults(tables)
}

// With a state: 18 before 19.
fn state_faults(
    tables: &LentTables<'_>,
    arrival: &LentArrival<'_>,
    conn: Connection,
) -> Result<(), Outcome>
    ensures { result ≡ checked (state_tests tables.now arrival.now.source arrival.now.destination conn) }
{
    family_faults(conn)?;
    input_faults(tables, arrival)
}

// 40: "one's complement sum, pseudo-header and checksum included, is not FFFF", between the addresses that came. The sum is of at most
// 65,535 bytes: 20 stands before it.
fn sum_faults(arrival: &LentArrival<'_>) -> Result<(), Outcome>
    ensures { result ≡ checked (sum_tests arrival.now) }
{
    let sum = traffic::sums::segment_sum(arrival.source, arrival.destination, arrival.segment);
    refuse_where(sum != 65535, 40)
}

// 20, then 40; else the segment, sized.
fn intact_faults<'a>(arrival: &LentArrival<'a>) -> Result<SizedSegment<'a>, Outcome>
    ensures { result ≡ result_and (checked (intact_tests arrival.now)) (Ok arrival.now.segment) }
{
    let segment = SizedSegment::read(arrival.segment, 20)?;
    sum_faults(arrival)?;
    Ok(segment)
}

// 21: "malformed options"; 22: "two TCP-AO, or TCP-AO and MD5 together"; Ticket 9: "Two kind 19 give 22".
fn form_faults(options: Option<Seen>) -> Result<(), Outcome>
    ensures { result ≡ checked (option_tests options) }
{
    let seen = options.ok_or(refuse(21))?;
    let ao = seen.ao.count;
    let md5 = seen.md5.count;
    refuse_where(1 < ao || 0 < ao && 0 < md5 || 1 < md5, 22)
}

// 23, or 33 when signing: ports that are not the state's.
pub(crate) fn port_faults(
    number: u8,
    header: Header,
    source: u16,
    destination: u16,
) -> Result<(), Outcome>
    ensures { result
        ≡ checked
        (tests (refuse_of number)
        (not (eqb header.source_port source) ∷ not (eqb header.destination_port destination) ∷ [])) }
{
    let same = header.source_port == source && header.destination_port == destination;
    refuse_where(!same, number)
}

// 23: "pair is not the state's". The source of what arrives is our remote side.
fn pair_faults(pair: Pair, source: &[u8], destination: &[u8], header: Header) -> Result<(), Outcome>
    ensures { result ≡ checked (header_pair_tests pair source.now destination.now header) }
{
    let same = is_address(source, pair.family, pair.remote)
        && is_address(destination, pair.family, pair.local);
    refuse_where(!same, 23)?;
    port_faults(23, header, pair.remote_port, pair.local_port)
}

// "a bare SYN (SYN set, ACK clear)"
pub(crate) fn bare_syn(header: Header) -> bool
    ensures { result ≡ (header.syn && not header.ack) }
{
    header.syn && !header.ack
}

// 24, or 34 when signing: "wrong segment for the stage". Open: a bare SYN; opening: any but a segment that opens.
pub(crate) fn stage_faults(
    number: u8,
    conn: Connection,
    header: Header,
    opens: bool,
) -> Result<(), Outcome>
    ensures { result
        ≡ checked (test (refuse_of number) (cond (is_open_of conn) (header.syn && not header.ack) (not opens)) ∷ []) }
{
    let wrong = if is_open(conn) {
        bare_syn(header)
    } else {
        !opens
    };
    refuse_where(wrong, number)
}

// 24 without a state: anything but a bare SYN.
fn syn_faults(header: Header) -> Result<(), Outcome>
    ensures { result ≡ checked (header_syn_tests header) }
{
    refuse_where(!bare_syn(header), 24)
}

// 23, then 24. What opens an opening connection is a SYN with ACK.
fn arrival_faults(
    conn: Connection,
    arrival: &LentArrival<'_>,
    header: Header,
) -> Result<(), Outcome>
    ensures { result ≡ checked (header_arrival_tests conn arrival.now.source arrival.now.destination header) }
{
    pair_faults(conn.pair, arrival.source, arrival.destination, header)?;
    stage_faults(24, conn, header, header.syn && header.ack)
}

// With a state, up to 40: the input, and the segment's size and sum; else the segment, sized.
pub fn early_faults<'a>(
    tables: &LentTables<'_>,
    arrival: &LentArrival<'a>,
    conn: Connection,
) -> Result<SizedSegment<'a>, Outcome>
    ensures { result
        ≡ result_and
        (checked (state_tests tables.now arrival.now.source arrival.now.destination conn ++ intact_tests arrival.now))
        (Ok arrival.now.segment) }
{
    state_faults(tables, arrival, conn)?;
    intact_faults(arrival)
}

// 21 to 24: form, pair and stage.
pub fn formed_faults(
    conn: Connection,
    arrival: &LentArrival<'_>,
    header: Header,
) -> Result<(), Outcome>
    ensures { result
        ≡ checked
        (option_tests header.options ++ header_arrival_tests conn arrival.now.source arrival.now.destination header) }
{
    form_faults(header.options)?;
    arrival_faults(conn, arrival, header)
}

// The same without a state.
pub fn early_syn_faults<'a>(
    tables: &LentTables<'_>,
    arrival: &LentArrival<'a>,
) -> Result<SizedSegment<'a>, Outcome>
    ensures { result
        ≡ result_and
        (checked (input_tests tables.now arrival.now.source arrival.now.destination ++ intact_tests arrival.now))
        (Ok arrival.now.segment) }
{
    input_faults(tables, arrival)?;
    intact_faults(arrival)
}

pub fn formed_syn_faults(header: Header) -> Result<(), Outcome>
    ensures { result ≡ checked (option_tests header.options ++ header_syn_tests header) }
{
    form_faults(header.options)?;
    syn_faults(header)
}
