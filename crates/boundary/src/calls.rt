// The calls on both tables and on a connection: docs/BOUNDARY.md, "Tables", "The calls on one connection" and "The state". Each
// turns the lent bytes into a state, makes the call of the crate `tcpao`, and turns the state back; preparing, which has no state, calls
// `tables`. Assumes nothing.
// A call asks for the tables' `parts` only so that its proof knows that they are those of some bytes: then an index fits its bits.
ghost use Rattle.std.specs.Prelude.{◌≡◌, ◌^◌, ◌<◌, length};
ghost use Rattle.rules.specs.Connection.{empty};
ghost use Rattle.rules.specs.Results.{settled_as};
ghost use Rattle.states.specs.Layout.{state_bytes};
ghost use Rattle.boundary.specs.Word.{word as word_of, of_settled};
ghost use Rattle.boundary.specs.Exports.{settles as settles_of, answers, leaves, writes, fills, left_by, check_table_export};
ghost use Rattle.boundary.specs.Exports.{prepare_export, open_active_export, open_active_md5_export, judge_syn_export};
ghost use Rattle.boundary.specs.Exports.{open_passive_export, judge_export, sign_export, ask_export};

use crate::answer::{of_refusal, of_result, of_verdict, word};
use rules::{LentArrival, State, Verdict};
use states::buffer::{is_state, put};
use states::state::decode;
use tables::{LentTables, Refusal};

// The number for a state buffer of another length.
const WRONG_STATE: u8 = 18;

// How many key entries, or 10 to 17 and 45 with the entry's table and index, or 44.
pub fn check_table(tables: &LentTables<'_>) -> u64
    ensures { answers result ≡ check_table_export tables.now }
{
    let _ = tables.parts();
    of_result(tcpao::operator::check_table(tables))
}

// Prepares both tables: the length written, or their refusal, or 37. The output is written only where that is done.
pub fn prepare(keys: &[u8], md5: &[u8], out: &mut [u8]) -> u64
    ensures { fills result out.new ≡ prepare_export keys.now md5.now out.old }
{
    of_result(tables::prepare(keys, md5, out))
}

// A new state is written; where the call is refused the buffer stays as it was.
#[tactic(auto, unfolding(rules::specs::Answers::done_answer))]
fn settle(state: &mut [u8], settled: Result<State, Refusal>) -> u64
    requires length { length state.old ≡ state_bytes }
    requires value { (of_settled (settled_as empty settled)).value < 2 ^ 32 }
    ensures answer { result ≡ word_of (of_settled (settled_as empty settled)) }
    ensures state { state.new ≡ left_by state.old settled }
{
    match settled {
        Ok(q) => {
            put(state, q);
            word(0, 0)
        }
        Err(refusal) => of_refusal(refusal),
    }
}

// Opens actively; the state is written only where that is done.
pub fn open_active(
    tables: &LentTables<'_>,
    local: &[u8],
    remote: &[u8],
    local_port: u16,
    remote_port: u16,
    isn: u32,
    send_id: u8,
    state: &mut [u8],
) -> u64
    ensures { leaves result state.new
        ≡ open_active_export tables.now local.now remote.now local_port remote_port isn send_id state.old }
{
    if !is_state(state) {
        return word(WRONG_STATE, 0);
    }
    let _ = tables.parts();
    settle(
        state,
        tcpao::open::open_active(tables, local, remote, local_port, remote_port, isn, send_id),
    )
}

// Ticket 9: opens actively by MD5.
pub fn open_active_md5(
    tables: &LentTables<'_>,
    local: &[u8],
    remote: &[u8],
    local_port: u16,
    remote_port: u16,
    isn: u32,
    state: &mut [u8],
) -> u64
    ensures { leaves result state.new
        ≡ open_active_md5_export tables.now local.now remote.now local_port remote_port isn state.old }
{
    if !is_state(state) {
        return word(WRONG_STATE, 0);
    }
    let _ = tables.parts();
    settle(
        state,
        tcpao::open::open_active_md5(tables, local, remote, local_port, remote_port, isn),
    )
}

// A bare SYN, without a state.
pub fn judge_syn(tables: &LentTables<'_>, arrival: &LentArrival<'_>, setting: u8) -> u64
    ensures { answers result
        ≡ judge_syn_export tables.now arrival.now.source arrival.now.destination arrival.now.segment setting }
{
    let _ = tables.parts();
    let judged = tcpao::judge::judge_syn(tables, arrival, setting != 0);
    of_verdict(judged.verdict, judged.index)
}

// Whether a passive opening is not refused.
fn settles(verdict: Verdict) -> bool
    ensures { result ≡ settles_of verdict }
{
    match verdict {
        Verdict::Accept(_) => true,
        Verdict::Pass => true,
        Verdict::Drop(_) => false,
    }
}

// Judges the bare SYN again and, only on accept, opens. Writes the state that it opened, or the empty one where the SYN is only passed.
pub fn open_passive(
    tables: &LentTables<'_>,
    arrival: &LentArrival<'_>,
    isn: u32,
    setting: u8,
    state: &mut [u8],
) -> u64
    ensures { leaves result state.new
        ≡ open_passive_export tables.now
        arrival.now.source arrival.now.destination arrival.now.segment isn setting
        state.old }
{
    if !is_state(state) {
        return word(WRONG_STATE, 0);
    }
    let _ = tables.parts();
    let opened = tcpao::judge::open_passive(tables, arrival, isn, setting != 0);
    if settles(opened.verdict) {
        put(state, opened.state);
    }
    of_verdict(opened.verdict, opened.index)
}

// Judges an arriving segment on a connection, opening or open.
pub fn judge(tables: &LentTables<'_>, arrival: &LentArrival<'_>, state: &mut [u8]) -> u64
    ensures { leaves result state.new
        ≡ judge_export tables.now
        arrival.now.source arrival.now.destination arrival.now.segment state.old }
{
    if !is_state(state) {
        return word(WRONG_STATE, 0);
    }
    let _ = tables.parts();
    let held = decode(state);
    let judged = tcpao::judge::judge(tables, arrival, held);
    put(state, judged.state);
    of_verdict(judged.verdict, judged.index)
}

// Signs a segment into `out`; only the signed length's bytes of it are written.
pub fn sign(tables: &LentTables<'_>, segment: &[u8], out: &mut [u8], state: &mut [u8]) -> u64
    ensures { writes result state.new out.new ≡ sign_export tables.now segment.now out.old state.old }
{
    if !is_state(state) {
        return word(WRONG_STATE, 0);
    }
    let _ = tables.parts();
    let held = decode(state);
    match tcpao::sign::sign(tables, segment, out, held) {
        Ok(signed) => {
            put(state, signed.state);
            word(0, signed.len as u32)
        }
        Err(refused) => of_refusal(refused),
    }
}

// Sets the RecvID asked of the peer.
pub fn ask(tables: &LentTables<'_>, recv_id: u8, state: &mut [u8]) -> u64
    ensures { leaves result state.new ≡ ask_export tables.now recv_id state.old }
{
    if !is_state(state) {
        return word(WRONG_STATE, 0);
    }
    let _ = tables.parts();
    let held = decode(state);
    settle(state, tcpao::operator::ask(tables, recv_id, held))
}
