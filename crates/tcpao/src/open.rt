// Active opening: document 01, "A connection's life", "Active opening names a SendID; its entry must match the pair." Also the refusal,
// which it shares with the operator's call and signing. Assumes nothing.
ghost use Rattle.std.specs.Prelude.{◌≡◌};
ghost use Rattle.rules.specs.Answers.{done_answer, opened_number, opened_md5_number};
ghost use Rattle.rules.specs.Connection.{empty};
ghost use Rattle.rules.specs.Calls.{opened_actively, opened_actively_md5};
ghost use Rattle.rules.specs.Results.{settled_as};
ghost use Rattle.tcpao.specs.Refusals.{refusal_of};

use checks::faults::address_faults;
use checks::opening::key_faults;
use rules::{NO_INDEX, Outcome, State};
use states::writers::{opening, pair_of};
use tables::{LentTables, Refusal};

// The number of a call that gives no pass, with the entry beside it.
pub(crate) fn refusal(outcome: Outcome) -> Refusal
    ensures { result ≡ refusal_of outcome }
{
    match outcome {
        Outcome::Bad(number, index) => Refusal { number, index },
        _ => Refusal {
            number: 0,
            index: NO_INDEX,
        },
    }
}

// "It gives the outgoing key and, by RecvID, the key asked of the peer." An opening refused gives no state.
pub fn open_active(
    tables: &LentTables<'_>,
    local: &[u8],
    remote: &[u8],
    local_port: u16,
    remote_port: u16,
    isn: u32,
    send_id: u8,
) -> Result<State, Refusal>
    ensures answer { settled_as empty result
        ≡ opened_actively tables.now local.now remote.now local_port remote_port isn send_id }
    ensures number { done_answer (settled_as empty result).answer (settled_as empty result).index
        ≡ opened_number tables.now local.now remote.now local_port remote_port send_id }
{
    address_faults(local, remote).map_err(refusal)?;
    let pair = pair_of(local, remote, local_port, remote_port);
    let entry = key_faults(tables, tables.find_send(pair, send_id)).map_err(refusal)?;
    Ok(opening(0, pair, isn, send_id, entry.ids.recv))
}

// Ticket 9: an active opening by MD5 names no SendID, and its IDs are 0.
// Kept (no plainer): beside open_active, from which it differs in the entry that it asks for and in the IDs that it writes.
pub fn open_active_md5(
    tables: &LentTables<'_>,
    local: &[u8],
    remote: &[u8],
    local_port: u16,
    remote_port: u16,
    isn: u32,
) -> Result<State, Refusal>
    ensures answer { settled_as empty result
        ≡ opened_actively_md5 tables.now local.now remote.now local_port remote_port isn }
    ensures number { done_answer (settled_as empty result).answer (settled_as empty result).index
        ≡ opened_md5_number tables.now local.now remote.now local_port remote_port }
{
    address_faults(local, remote).map_err(refusal)?;
    let pair = pair_of(local, remote, local_port, remote_port);
    key_faults(tables, tables.find_md5(pair)).map_err(refusal)?;
    Ok(opening(1, pair, isn, 0, 0))
}
