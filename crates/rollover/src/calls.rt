// The calls of `tcpao` as an end of this connection makes them, with its key table. Assumes nothing.
use crate::key_tables::{FIRST, OTHER, table};
use crate::script::Side;
use rules::{Judged, LentArrival, State, Verdict};
use states::writers::empty;
use tables::LentTables;

// How many entries the side's table has, if it is valid.
pub fn entries(side: Side) -> Option<usize> {
    let table = table(side);
    tcpao::operator::check_table(&LentTables::of_bytes(&table, &[])).ok()
}

// Opens the client under key 1. The state of an opening that is refused is the empty one.
pub fn open_active(isn: u32) -> State {
    let side = Side::Client;
    let table = table(side);
    let opened = tcpao::open::open_active(
        &LentTables::of_bytes(&table, &[]),
        &side.address(),
        &side.other().address(),
        side.port(),
        side.other().port(),
        isn,
        FIRST.id(side),
    );
    opened.unwrap_or(empty())
}

// What the server says to a SYN without a state,
pub fn judge_syn(syn: &[u8]) -> Verdict {
    let table = table(Side::Server);
    let arrival = LentArrival {
        source: &Side::Client.address(),
        destination: &Side::Server.address(),
        segment: syn,
    };
    tcpao::judge::judge_syn(&LentTables::of_bytes(&table, &[]), &arrival, true).verdict
}

// and what it makes of it when it opens.
pub fn open_passive(syn: &[u8], isn: u32) -> Judged {
    let table = table(Side::Server);
    let arrival = LentArrival {
        source: &Side::Client.address(),
        destination: &Side::Server.address(),
        segment: syn,
    };
    tcpao::judge::open_passive(&LentTables::of_bytes(&table, &[]), &arrival, isn, true)
}

// Signs a segment, and gives the state after it: a refusal leaves it as it was.
pub fn sign(side: Side, segment: &[u8], out: &mut [u8], state: State) -> State {
    let table = table(side);
    let tables = LentTables::of_bytes(&table, &[]);
    match tcpao::sign::sign(&tables, segment, out, state) {
        Ok(signed) => signed.state,
        Err(_) => state,
    }
}

// Judges a segment that arrives at this side.
pub fn judge(side: Side, segment: &[u8], state: State) -> Judged {
    let table = table(side);
    let arrival = LentArrival {
        source: &side.other().address(),
        destination: &side.address(),
        segment,
    };
    tcpao::judge::judge(&LentTables::of_bytes(&table, &[]), &arrival, state)
}

// The server's operator asks that the client sign under key 2. A refusal leaves the state as it was.
pub fn ask(state: State) -> State {
    let table = table(Side::Server);
    let id = OTHER.id(Side::Client);
    let asked = tcpao::operator::ask(&LentTables::of_bytes(&table, &[]), id, state);
    asked.unwrap_or(state)
}
