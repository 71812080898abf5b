// What is wrong with an entry by itself: the numbers 13 to 16 of document 01, "Numbers given back".
// Assumes nothing: every value of the types is an input.
// Kept (no plainer): an error is the document's number, which `Fault` gives on as it is; an enum would be turned into it one for one.
ghost use Rattle.std.specs.Prelude.{◌≡◌};
ghost use Rattle.octets.specs.Tests.{checked};
ghost use Rattle.keys.specs.Table.{zeros, secret_tests, md5_tests, listed_tests, port_range_tests, side_tests, master_key_tests};
ghost use Rattle.keys.specs.Table.{entry_tests};

use crate::entry::{Entry, Ids, Secret, Selector, Side, width_of};
use crate::table::TableKind;

fn secret_faults(s: Secret) -> Result<(), u8>
    ensures { result ≡ checked (secret_tests s) }
{
    if 7 < s.flags || s.algorithm < 1 || 3 < s.algorithm || s.mac_bytes < 4 || 16 < s.mac_bytes {
        return Err(13);
    }
    Ok(())
}

// 13 of an entry of the MD5 table.
fn md5_faults(s: Secret, ids: Ids) -> Result<(), u8>
    ensures { result ≡ checked (md5_tests s ids) }
{
    if 0 < s.flags || s.algorithm != 19 || 0 < ids.send || 0 < ids.recv {
        return Err(13);
    }
    Ok(())
}

fn listed_faults(kind: TableKind, e: Entry) -> Result<(), u8>
    ensures { result ≡ checked (listed_tests kind e) }
{
    match kind {
        TableKind::Keys => secret_faults(e.secret),
        TableKind::Md5 => md5_faults(e.secret, e.ids),
    }
}

fn port_faults(s: Selector) -> Result<(), u8>
    ensures { result ≡ checked (port_range_tests s) }
{
    if s.local.high < s.local.low || s.remote.high < s.remote.low {
        return Err(14);
    }
    Ok(())
}

// Kept (may not change): the family is a selector's byte, of which any may come: `side_tests` answers for each.
fn side_faults(family: u8, s: Side) -> Result<(), u8>
    ensures { result ≡ checked (side_tests family s) }
{
    if 8 * width_of(family) < s.bits as usize || !wire::prefix::clear_past(&s.address, s.bits) {
        return Err(15);
    }
    Ok(())
}

// Whether all are zero. All are looked at, so that the compiler can take many at once.
fn all_zero(bytes: &[u8]) -> bool
    ensures { result ≡ zeros bytes.now }
{
    bytes.iter().fold(0, |set, byte| set | byte) == 0
}

fn key_faults(s: Secret) -> Result<(), u8>
    ensures { result ≡ checked (master_key_tests s) }
{
    if s.key_len < 1 || 80 < s.key_len || !all_zero(&s.key[s.key_len as usize..]) {
        return Err(16);
    }
    Ok(())
}

pub(crate) fn entry_faults(kind: TableKind, e: Entry) -> Result<(), u8>
    ensures { result ≡ checked (entry_tests kind e) }
{
    listed_faults(kind, e)?;
    port_faults(e.selector)?;
    side_faults(e.selector.family, e.selector.local)?;
    side_faults(e.selector.family, e.selector.remote)?;
    key_faults(e.secret)
}
