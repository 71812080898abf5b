// The calls that judge: document 01, "A connection's life" and "Numbers given back". `checks::check` says which number or position; here
// the answer and the new state are made of it. No call assumes anything; what a step assumes of the outcome is a fact of that check.
ghost use Rattle.std.specs.Prelude.{◌≡◌, false};
ghost use Rattle.rules.specs.Answers.{verdict_answer, judged_number, syn_number};
ghost use Rattle.rules.specs.Connection.{is_open_of, next_key_of};
ghost use Rattle.rules.specs.Calls.{next_on_lem, after_judging_of, judged, judged_syn, opened_passively};
ghost use Rattle.tcpao.specs.Arriving.{AtNumber, TakenBy, opened_from};

use checks::begun::{Way, finished};
use checks::check::{arrival_pair, begin_syn, check, check_syn};
use keys::entry::Pair;
use rules::{Judged, LentArrival, Outcome, State, SynJudged, Verdict};
use states::writers::{empty, is_md5, is_open, opened, with_accepted, with_counted, with_drop};
use tables::LentTables;
use wire::header::sequence;

// "if RNextKeyID differs from the outgoing SendID, and an entry matching the pair has that SendID, it becomes the outgoing key (7.5.2.e)"
#[tactic(auto, using(checks::proofs::Keyed::there_is), unfolding(rules::specs::Connection::next_key_of, rules::specs::Connection::available))]
fn next_key(tables: &LentTables<'_>, pair: Pair, rnext: u8, current: u8) -> u8
    ensures { result ≡ next_key_of tables.now pair rnext current }
{
    if rnext != current && tables.find_send(pair, rnext).is_some() {
        rnext
    } else {
        current
    }
}

// The outgoing key after an acceptance: the key rule is TCP-AO's, and an MD5 connection's ID stays.
fn next_on(tables: &LentTables<'_>, q: State, rnext: u8) -> u8
    ensures { result ≡ next_on_lem tables.now q rnext }
{
    if is_md5(q.conn) {
        q.send_id
    } else {
        next_key(tables, q.conn.pair, rnext, q.send_id)
    }
}

// An accepted segment at position x, whose number is `number`: it opens, the way as it is, or is accepted once open. There it is counted
// and, by TCP-AO, moves the reference.
fn accepted(tables: &LentTables<'_>, q: State, x: u64, rnext: u8, number: u32) -> State
    requires { is_open_of q.conn ≡ false → x ≡ number }
    ensures { result ≡ after_judging_of tables.now q (Outcome.Good x rnext) }
{
    let key = next_on(tables, q, rnext);
    if !is_open(q.conn) {
        return opened(q.conn.way, q.conn.pair, q.conn.isn, number, key, q.ask_id);
    }
    if is_md5(q.conn) {
        with_counted(q)
    } else {
        with_accepted(x, key, q)
    }
}

// A drop is counted once open.
fn after_judging(tables: &LentTables<'_>, q: State, number: u32, outcome: Outcome) -> State
    requires { AtNumber q.conn number outcome }
    ensures { result ≡ after_judging_of tables.now q outcome }
{
    match outcome {
        Outcome::Good(x, rnext) => accepted(tables, q, x, rnext, number),
        Outcome::Bad(n, _) if is_open(q.conn) => with_drop(n, q),
        _ => q,
    }
}

// Judges an arriving segment with a state, opening or open.
pub fn judge(tables: &LentTables<'_>, arrival: &LentArrival<'_>, state: State) -> Judged
    ensures answer { result ≡ judged tables.now arrival.now state }
    ensures number { verdict_answer result.verdict result.index ≡ judged_number tables.now arrival.now state }
{
    let outcome = check(tables, arrival, state.conn, state.seen);
    let next = after_judging(tables, state, sequence(arrival.segment), outcome);
    Judged {
        verdict: Verdict::from(outcome),
        index: outcome.index(),
        state: next,
    }
}

// "a bare SYN is judged without a state". Where an entry matches the pair an unknown KeyID gets 26; where none does, `strict` decides: 26
// or pass.
pub fn judge_syn(tables: &LentTables<'_>, arrival: &LentArrival<'_>, strict: bool) -> SynJudged
    ensures answer { result ≡ judged_syn tables.now arrival.now strict }
    ensures number { verdict_answer result.verdict result.index ≡ syn_number tables.now arrival.now strict }
{
    let outcome = check_syn(tables, arrival, strict);
    SynJudged {
        verdict: Verdict::from(outcome),
        index: outcome.index(),
    }
}

// "only on accept, opens with the entry found, then applies the key rule": its way and IDs, which judging found.
fn opened_by(
    tables: &LentTables<'_>,
    arrival: &LentArrival<'_>,
    isn: u32,
    way: Way,
    outcome: Outcome,
) -> State
    requires { TakenBy tables.now arrival.now way outcome }
    ensures { result ≡ opened_from tables.now arrival.now isn outcome }
{
    let Outcome::Good(_, rnext) = outcome else {
        return empty();
    };
    let pair = arrival_pair(arrival);
    let peer_isn = sequence(arrival.segment);
    match way {
        Way::Md5 => opened(1, pair, isn, peer_isn, 0, 0),
        Way::Ao(ids) => {
            let key = next_key(tables, pair, rnext, ids.send);
            opened(0, pair, isn, peer_isn, key, ids.recv)
        }
    }
}

// "A second call takes the same SYN and our ISN, judges it again and, only on accept, opens".
pub fn open_passive(
    tables: &LentTables<'_>,
    arrival: &LentArrival<'_>,
    isn: u32,
    strict: bool,
) -> Judged
    ensures answer { result ≡ opened_passively tables.now arrival.now isn strict }
    ensures number { verdict_answer result.verdict result.index ≡ syn_number tables.now arrival.now strict }
{
    match begin_syn(tables, arrival, strict) {
        Ok(begun) => {
            let outcome = finished(begun, arrival.segment);
            Judged {
                verdict: Verdict::from(outcome),
                index: outcome.index(),
                state: opened_by(tables, arrival, isn, begun.way, outcome),
            }
        }
        Err(outcome) => Judged {
            verdict: Verdict::from(outcome),
            index: outcome.index(),
            state: empty(),
        },
    }
}
