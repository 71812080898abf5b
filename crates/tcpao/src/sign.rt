// Signing: document 01, "A connection's life" and "What the MAC covers". The number is decided first (`checks::signing`); only then is a
// byte of the output written, and only the signed length's. The whole call is one begin, one piece of data and one end. Assumes nothing at
// the call; the functions below it say what the tests left.
ghost use Rattle.std.specs.Prelude.{◌≡◌, ◌++◌, ◌+◌, ◌≤◌, false, length};
ghost use Rattle.std.proofs.Math.Seq.{paste};
ghost use Rattle.keys.specs.Table.{found_of};
ghost use Rattle.rules.specs.Answers.{signing_answer, signed_number};
ghost use Rattle.rules.specs.Connection.{is_md5_of};
ghost use Rattle.rules.specs.Calls.{is_refused, outgoing as outgoing_of, after_signing_of, written, signed, output};
ghost use Rattle.rules.specs.Results.{signed_as};
ghost use Rattle.tcpao.specs.SignBegin.{SignBegins, Writable, finished};

use crate::open::refusal;
use crate::sign_begun::{SignBegun, ready, ready_md5};
use checks::signing::{grant, input_faults};
use keys::table::Hit;
use rules::{Outcome, SignedSegment, State};
use states::writers::{is_md5, is_open, with_sent};
use tables::{LentTables, Refusal};

// The entry signed under: the outgoing key's; on the MD5 way the one that matches the pair. In tables that are not refused the MAC by
// TCP-AO has at most 16 bytes: that they are those of some bytes is what `parts` says.
fn outgoing(tables: &LentTables<'_>, state: State) -> Option<Hit>
    ensures entry { found_of result ≡ outgoing_of tables.now state }
    ensures short { is_refused tables.now.answer ≡ false → is_md5_of state.conn ≡ false
        → (found_of result).entry.secret.mac_bytes ≤ 16 }
{
    let _ = tables.parts();
    if is_md5(state.conn) {
        tables.find_md5(state.conn.pair)
    } else {
        tables.find_send(state.conn.pair, state.send_id)
    }
}

// All that needs no data: every number, and what waits for the data. `room` is the output's length.
pub fn begin(
    tables: &LentTables<'_>,
    segment: &[u8],
    room: usize,
    state: State,
) -> Result<SignBegun, Outcome>
    ensures { SignBegins tables.now segment.now room state result }
{
    let sized = input_faults(tables, segment, state.conn)?;
    let granted = grant(room, outgoing(tables, state), state, sized.header())?;
    if is_md5(state.conn) {
        return Ok(ready_md5(granted, state, &sized));
    }
    Ok(ready(granted, state, &sized))
}

// The data, put into the output from `at` on.
// Kept (C interface): nothing tells the compiler that the segment lies outside the output, so the library's copy of a slice becomes a call
// of memmove, and from outside the archive needs only memcpy and memset.
fn lay_data(out: &mut [u8], at: usize, data: &[u8])
    requires { at + length «data».now ≤ length out.old }
    ensures { out.new ≡ paste out.old at «data».now (length «data».now) }
{
    for i in 0..data.len() {
        out[at + i] = data[i];
    }
}

// The signed header, then the data: only these bytes of the output change.
fn lay(out: &mut [u8], header: &[u8], data: &[u8])
    requires { length header.now + length «data».now ≤ length out.old }
    ensures { out.new ≡ written (header.now ++ «data».now) out.old }
{
    octets::copy_at(out, 0, header);
    lay_data(out, header.len(), data);
}

// Data and end, of a segment that is there whole, and its bytes written to the output's front.
fn finish(begun: SignBegun, segment: &[u8], out: &mut [u8])
    requires { Writable begun segment.now out.old }
    ensures { out.new ≡ written (finished begun segment.now) out.old }
{
    let end = wire::header::header_end(segment);
    let whole = end + begun.added;
    let header = begun.data(&segment[end..]).end();
    lay(out, &header[..whole], &segment[end..]);
}

// Ticket 9: "after opening neither it nor signing moves a reference".
fn after_signing(x: u64, state: State) -> State
    ensures { result ≡ after_signing_of x state }
{
    if is_open(state.conn) && is_md5(state.conn) {
        state
    } else {
        with_sent(x, state)
    }
}

// The answer with the new state, and every byte of the output. "A refusal leaves outputs and state alike".
pub fn sign(
    tables: &LentTables<'_>,
    segment: &[u8],
    out: &mut [u8],
    state: State,
) -> Result<SignedSegment, Refusal>
    ensures answer { signed_as state result ≡ signed tables.now segment.now out.old state }
    ensures storage { out.new ≡ output tables.now segment.now out.old state }
    ensures number { signing_answer (signed_as state result).answer (signed_as state result).index
        ≡ signed_number tables.now segment.now out.old state }
{
    let begun = begin(tables, segment, out.len(), state).map_err(refusal)?;
    finish(begun, segment, out);
    Ok(SignedSegment {
        len: segment.len() + begun.added,
        state: after_signing(begun.position, state),
    })
}
