// Which number an active opening or the operator's call gives: document 01, "Numbers given back", 10 to 18 and 35; an active
// opening tests 19 before (`tcpao::open`). Assumes nothing.
ghost use Rattle.std.specs.Prelude.{◌≡◌, not, [], ◌∷◌, ◌++◌, Ok};
ghost use Rattle.std.specs.Result.{result_and};
ghost use Rattle.octets.specs.Tests.{test, checked};
ghost use Rattle.keys.specs.Table.{found_of};
ghost use Rattle.rules.specs.Calls.{refuse as refuse_of, table_tests, ask_tests};

use crate::faults::{family_faults, refuse, refuse_where, table_faults};
use keys::entry::Entry;
use keys::table::Hit;
use rules::{Connection, Outcome};
use states::writers::is_md5;
use tables::LentTables;

// 10 to 17 and 45, then 35, where no entry answers; else the entry.
#[tactic(auto, unfolding(keys::specs::Table::nobody))]
pub fn key_faults(tables: &LentTables<'_>, found: Option<Hit>) -> Result<Entry, Outcome>
    ensures { result
        ≡ result_and
        (checked (table_tests tables.now ++ (test (refuse_of 35) (not (found_of found).there) ∷ [])))
        (Ok (found_of found).entry) }
{
    table_faults(tables)?;
    match found {
        Some(hit) => Ok(hit.entry),
        None => Err(refuse(35)),
    }
}

// Which number: 18, 10 to 17 and 45, then 35, "no entry matching the pair has .. the RecvID to ask"; Ticket 9: by MD5 "always 35".
#[tactic(auto, using(crate::proofs::Keyed::there_is))]
pub fn ask_faults(tables: &LentTables<'_>, recv_id: u8, conn: Connection) -> Result<(), Outcome>
    ensures { result ≡ checked (ask_tests tables.now recv_id conn) }
{
    family_faults(conn)?;
    table_faults(tables)?;
    refuse_where(
        is_md5(conn) || tables.find_recv(conn.pair, recv_id).is_none(),
        35,
    )
}
