// Who writes a connection's state: document 01, "Positions", "A connection's life" and "Numbers given back"; document 02, Ticket 9. Every
// other function passes the state on as it is. Assumes only of an address that becomes part of a pair that it has at most sixteen bytes:
// the callers have tested 19.
ghost use Rattle.std.specs.Prelude.{◌≡◌, ◌≤◌, length, take};
ghost use Rattle.wire.specs.Bytes.{same_bytes};
ghost use Rattle.keys.specs.Entry.{width};
ghost use Rattle.rules.specs.Connection.{pair_of_lem, is_open_of, is_md5_of, opened as opened_of, opening as opening_of};
ghost use Rattle.rules.specs.Connection.{empty as empty_state};
ghost use Rattle.rules.specs.Connection.{with_accepted_of, with_counted_of, with_drop_of, with_sent_of, with_asked_of};

use crate::counts::count_drop;
use keys::entry::Pair;
use octets::padded;
use rules::{Connection, SLOTS, State};

// The pair of two addresses of one size.
pub fn pair_of(local: &[u8], remote: &[u8], local_port: u16, remote_port: u16) -> Pair
    requires { (length local.now ≤ 16) × (length remote.now ≤ 16) }
    ensures { result ≡ pair_of_lem local.now remote.now local_port remote_port }
{
    Pair {
        family: if local.len() == 4 { 4 } else { 6 },
        local_port,
        remote_port,
        local: padded(local),
        remote: padded(remote),
    }
}

// Whether an address is the one that a pair of this family holds in a field. What stands behind an IPv4 address there means nothing.
// Kept (may not change): the family is a state's byte, of which any may come: the contract answers for each by `width`.
pub fn is_address(address: &[u8], family: u8, field: [u8; 16]) -> bool
    ensures { result ≡ same_bytes address.now (take (width family) field) }
{
    let w = keys::entry::width_of(family);
    wire::bytes::same(address, &field[..w])
}

// Stage 1 is open, every other value opening.
// Kept (may not change): a byte and no enum, since all its 256 values are states: the clauses `back` of state::encode and state::decode.
pub fn is_open(conn: Connection) -> bool
    ensures { result ≡ is_open_of conn }
{
    conn.stage == 1
}

// "A connection goes by the way it was opened": way 1 is MD5, every other value TCP-AO.
// Kept (may not change): a byte and no enum, as the stage: the clauses `back` of state::encode and state::decode.
pub fn is_md5(conn: Connection) -> bool
    ensures { result ≡ is_md5_of conn }
{
    conn.way == 1
}

// "Opening sets each reference to that side's ISN"; of the counts, "All are 0 at opening; the segment that opens is not counted."
// Kept (may not change): way is a byte, of which any is a state's: `opened` and `opening` of specs/Connection take each.
pub fn opened(way: u8, pair: Pair, isn: u32, peer_isn: u32, send_id: u8, ask_id: u8) -> State
    ensures { result ≡ opened_of way pair isn peer_isn send_id ask_id }
{
    let conn = Connection {
        stage: 1,
        way,
        pair,
        isn,
        peer_isn,
    };
    State {
        conn,
        sent: isn as u64,
        seen: peer_isn as u64,
        send_id,
        ask_id,
        accepted: 0,
        drops: [0; SLOTS],
    }
}

// "until the peer's ISN is known, it and its reference are 0"
pub fn opening(way: u8, pair: Pair, isn: u32, send_id: u8, ask_id: u8) -> State
    ensures { result ≡ opening_of way pair isn send_id ask_id }
{
    let q = opened(way, pair, isn, 0, send_id, ask_id);
    State {
        conn: Connection { stage: 0, ..q.conn },
        ..q
    }
}

// "the empty state, family 0"
pub fn empty() -> State
    ensures { result ≡ empty_state }
{
    let pair = Pair {
        family: 0,
        local_port: 0,
        remote_port: 0,
        local: [0; 16],
        remote: [0; 16],
    };
    opening(0, pair, 0, 0, 0)
}

// An accepted segment at position x, once open: "sets its direction's reference to the larger of the old one and X". "Counts of acceptances
// and of each drop stop at 2^64-1."
pub fn with_accepted(x: u64, send_id: u8, q: State) -> State
    ensures { result ≡ with_accepted_of x send_id q }
{
    State {
        seen: q.seen.max(x),
        send_id,
        accepted: q.accepted.saturating_add(1),
        ..q
    }
}

// Document 02, Ticket 9, an accepted MD5 segment, once open: "neither it nor signing moves a reference".
pub fn with_counted(q: State) -> State
    ensures { result ≡ with_counted_of q }
{
    State {
        accepted: q.accepted.saturating_add(1),
        ..q
    }
}

// A drop, once open.
pub fn with_drop(n: u8, q: State) -> State
    ensures { result ≡ with_drop_of n q }
{
    State {
        drops: count_drop(n, q.drops),
        ..q
    }
}

// A signed segment at position x.
pub fn with_sent(x: u64, q: State) -> State
    ensures { result ≡ with_sent_of x q }
{
    State {
        sent: q.sent.max(x),
        ..q
    }
}

// "An operator call sets the RecvID asked of the peer; nothing else does."
pub fn with_asked(id: u8, q: State) -> State
    ensures { result ≡ with_asked_of id q }
{
    State { ask_id: id, ..q }
}
