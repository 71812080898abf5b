// What the operator calls: the check of a key table, and the RecvID asked of the peer. Document 01, "Key table (house bytes)" and
// "A connection's life", "An operator call sets the RecvID asked of the peer; nothing else does." Assumes nothing.
ghost use Rattle.std.specs.Prelude.{◌≡◌};
ghost use Rattle.rules.specs.Answers.{table_answer, done_answer, table_number, asked_number};
ghost use Rattle.rules.specs.Calls.{asked};
ghost use Rattle.rules.specs.Results.{settled_as};

use crate::open::refusal;
use checks::opening::ask_faults;
use rules::State;
use states::writers::with_asked;
use tables::{LentTables, Refusal};

// 10 to 17 and 45 with the entry's table and index, or 44, or how many key entries there are: that the tables are those of some bytes is
// what `parts` says.
pub fn check_table(tables: &LentTables<'_>) -> Result<usize, Refusal>
    ensures answer { result ≡ tables.now.answer }
    ensures number { table_answer result ≡ table_number tables.now }
{
    let _ = tables.parts();
    tables.check()
}

// A refusal leaves the state as it is.
pub fn ask(tables: &LentTables<'_>, recv_id: u8, state: State) -> Result<State, Refusal>
    ensures answer { settled_as state result ≡ asked tables.now recv_id state }
    ensures number { done_answer (settled_as state result).answer (settled_as state result).index
        ≡ asked_number tables.now recv_id state.conn }
{
    ask_faults(tables, recv_id, state.conn).map_err(refusal)?;
    Ok(with_asked(recv_id, state))
}
