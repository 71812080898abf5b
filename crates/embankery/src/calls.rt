// The calls on both tables and on a connection for C: docs/BOUNDARY.md, "Tables", "The calls on one connection" and "The
// state". They are those of the crate `boundary`. Assumes nothing.
// Kept (C interface): the tables' three parameters, an arrival's three, and ports as numbers: include/embankery.h declares them so.
ghost use Rattle.std.specs.Prelude.{◌≡◌};
ghost use Rattle.tables.specs.Tables.{tables_of};
ghost use Rattle.boundary.specs.Exports.{answers, fills, leaves, writes, check_table_export, prepare_export, open_active_export};
ghost use Rattle.boundary.specs.Exports.{open_active_md5_export, judge_syn_export, open_passive_export, judge_export, sign_export};
ghost use Rattle.boundary.specs.Exports.{ask_export};

use rules::LentArrival;
use tables::LentTables;

// How many key entries, or 10 to 17 and 45 with the entry's table and index, or 44.
#[unsafe(no_mangle)]
pub extern "C" fn tcpao_check_table(form: u8, keys: &[u8], md5: &[u8]) -> u64
    ensures { answers result ≡ check_table_export (tables_of form keys.now md5.now) }
{
    boundary::calls::check_table(&LentTables::new(form, keys, md5))
}

// Prepares both tables: the length written, or their refusal, or 37. The output is written only where that is done.
#[unsafe(no_mangle)]
pub extern "C" fn tcpao_prepare(keys: &[u8], md5: &[u8], out: &mut [u8]) -> u64
    ensures { fills result out.new ≡ prepare_export keys.now md5.now out.old }
{
    boundary::calls::prepare(keys, md5, out)
}

// Opens actively; the state is written only where that is done.
#[unsafe(no_mangle)]
pub extern "C" fn tcpao_open_active(
    form: u8,
    keys: &[u8],
    md5: &[u8],
    local: &[u8],
    remote: &[u8],
    local_port: u16,
    remote_port: u16,
    isn: u32,
    send_id: u8,
    state: &mut [u8],
) -> u64
    ensures { leaves result state.new
        ≡ open_active_export (tables_of form keys.now md5.now) local.now remote.now local_port
        remote_port isn send_id
        state.old }
{
    let tables = LentTables::new(form, keys, md5);
    boundary::calls::open_active(
        &tables,
        local,
        remote,
        local_port,
        remote_port,
        isn,
        send_id,
        state,
    )
}

// Opens actively by MD5; the state is written only where that is done.
#[unsafe(no_mangle)]
pub extern "C" fn tcpmd5_open_active(
    form: u8,
    keys: &[u8],
    md5: &[u8],
    local: &[u8],
    remote: &[u8],
    local_port: u16,
    remote_port: u16,
    isn: u32,
    state: &mut [u8],
) -> u64
    ensures { leaves result state.new
        ≡ open_active_md5_export (tables_of form keys.now md5.now) local.now remote.now local_port
        remote_port isn
        state.old }
{
    let tables = LentTables::new(form, keys, md5);
    boundary::calls::open_active_md5(&tables, local, remote, local_port, remote_port, isn, state)
}

// A bare SYN, without a state.
#[unsafe(no_mangle)]
pub extern "C" fn tcpao_judge_syn(
    form: u8,
    keys: &[u8],
    md5: &[u8],
    source: &[u8],
    destination: &[u8],
    segment: &[u8],
    setting: u8,
) -> u64
    ensures { answers result
        ≡ judge_syn_export (tables_of form keys.now md5.now)
        source.now destination.now segment.now setting }
{
    let tables = LentTables::new(form, keys, md5);
    let arrival = LentArrival {
        source,
        destination,
        segment,
    };
    boundary::calls::judge_syn(&tables, &arrival, setting)
}

// Judges the bare SYN again and, only on accept, opens. Writes the state that it opened, or the empty one where the SYN is only passed.
#[unsafe(no_mangle)]
pub extern "C" fn tcpao_open_passive(
    form: u8,
    keys: &[u8],
    md5: &[u8],
    source: &[u8],
    destination: &[u8],
    segment: &[u8],
    isn: u32,
    setting: u8,
    state: &mut [u8],
) -> u64
    ensures { leaves result state.new
        ≡ open_passive_export (tables_of form keys.now md5.now)
        source.now destination.now segment.now isn setting
        state.old }
{
    let tables = LentTables::new(form, keys, md5);
    let arrival = LentArrival {
        source,
        destination,
        segment,
    };
    boundary::calls::open_passive(&tables, &arrival, isn, setting, state)
}

// Judges an arriving segment on a connection, opening or open.
#[unsafe(no_mangle)]
pub extern "C" fn tcpao_judge(
    form: u8,
    keys: &[u8],
    md5: &[u8],
    source: &[u8],
    destination: &[u8],
    segment: &[u8],
    state: &mut [u8],
) -> u64
    ensures { leaves result state.new
        ≡ judge_export (tables_of form keys.now md5.now)
        source.now destination.now segment.now state.old }
{
    let tables = LentTables::new(form, keys, md5);
    let arrival = LentArrival {
        source,
        destination,
        segment,
    };
    boundary::calls::judge(&tables, &arrival, state)
}

// Signs a segment into `out`; only the signed length's bytes of it are written.
#[unsafe(no_mangle)]
pub extern "C" fn tcpao_sign(
    form: u8,
    keys: &[u8],
    md5: &[u8],
    segment: &[u8],
    out: &mut [u8],
    state: &mut [u8],
) -> u64
    ensures { writes result state.new out.new
        ≡ sign_export (tables_of form keys.now md5.now)
        segment.now out.old state.old }
{
    let tables = LentTables::new(form, keys, md5);
    boundary::calls::sign(&tables, segment, out, state)
}

// Sets the RecvID asked of the peer.
#[unsafe(no_mangle)]
pub extern "C" fn tcpao_ask(form: u8, keys: &[u8], md5: &[u8], recv_id: u8, state: &mut [u8]) -> u64
    ensures { leaves result state.new ≡ ask_export (tables_of form keys.now md5.now)
        recv_id state.old }
{
    let tables = LentTables::new(form, keys, md5);
    boundary::calls::ask(&tables, recv_id, state)
}
