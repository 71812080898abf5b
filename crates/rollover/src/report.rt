// What explains the program, and what stands at the end of the two runs. Assumes nothing.
use crate::alike::ended_alike;
use crate::calls;
use crate::key_tables::name;
use crate::runs::Run;
use crate::script::{SECOND_RUN, Side};
use crate::words::{Position, Told, What};
use rules::State;
use std::fmt;
use std::io::Print;

// How many entries a valid table has.
#[derive(Drop)]
struct Entries(Option<usize>);

impl fmt::Display for Entries {
    fn fmt<W: fmt::Write>(&self, f: &mut fmt::Formatter<W>) -> fmt::Result {
        match self.0 {
            Some(n) => write!(f, "{n}"),
            None => write!(f, "no valid"),
        }
    }
}

pub fn title(rt: &impl Print) {
    let _ = print!(rt;
        "TCP-AO across the rollover: a client and a server exchange signed segments while their 32-bit sequence numbers\n\
        pass ffffffff. Whatever the order of arrival, each end finds where a segment truly lies, written extension:number.\n\n\
        Key 1 is HMAC-SHA-1-96, with KeyID 61 from the client and 84 from the server.\n\
        Key 2 is AES-128-CMAC-96, with KeyID 62 from the client and 85 from the server.\n\
        Entries in the key tables: {} at the client, {} at the server, each the mirror of one at the other end.\n\n",
        Entries(calls::entries(Side::Client)),
        Entries(calls::entries(Side::Server))
    );
}

fn row(rt: &impl Print, end: &str, state: State) {
    let _ = print!(rt; "{end:<18}{:>4}       ", state.accepted);
    for count in state.drops {
        let _ = print!(rt; "{count:>4}");
    }
    let key = name(state.send_id);
    let _ = print!(rt; "  {}  {key:<5}", Position(state.seen));
}

fn columns(rt: &impl Print) {
    let _ = println!(rt;
        "              accepted  drops  20  21  22  23  24  25  26  27  28  29  40  46  47  reference   signs"
    );
}

pub fn counts(rt: &impl Print, run: &Run) {
    let _ = print!(rt;
        "\nAfter the first run: the counts, the reference of the arriving direction, the key that the end signs under.\n"
    );
    columns(rt);
    row(rt, "client", run.ends.client);
    let _ = println!(rt);
    row(rt, "server", run.ends.server);
    let _ = println!(rt);
}

// What a comparison gave.
fn same(yes: bool) -> &'static str {
    if yes { "the same" } else { "DIFFERS" }
}

pub fn verdicts(rt: &impl Print, first: &Run, second: &Run) {
    let _ = print!(rt; "\nSecond run: the same arrivals, from the same opening, in another order:");
    for no in SECOND_RUN {
        let _ = print!(rt; " {no}");
    }
    let _ = print!(rt;
        ".\nThe verdicts of both runs, in the order of sending:\n\
        No.  what                 first run                     second run\n"
    );
    let both = first.verdicts.iter().zip(second.verdicts.iter());
    for ((one, two), no) in both.zip(0..17u8) {
        if let (Some(one), Some(two)) = (one, two) {
            let how = same(one == two);
            let _ = println!(rt; " {no:>2}  {}{}{}  {how}", What(no), Told(*one), Told(*two));
        }
    }
}

// The state after the second run, compared with that after the first.
fn compared(rt: &impl Print, end: &str, first: State, second: State) {
    row(rt, end, second);
    let how = same(ended_alike(first, second));
    let _ = println!(rt; "  {how}");
}

pub fn ends(rt: &impl Print, first: &Run, second: &Run) {
    let _ = println!(rt; "\nAfter the second run, compared with the first:");
    columns(rt);
    compared(rt, "client", first.ends.client, second.ends.client);
    compared(rt, "server", first.ends.server, second.ends.server);
    let _ = print!(rt;
        "\nDemand 3 (docs/CLAIMS.md) is proved of every order: where no other arrival verifies under a key, each true segment is\n\
        accepted with its extension, and the reference and how many were accepted and dropped in all are the same. Here the\n\
        drops agree one by one too, since each forgery and the damaged copy fail at the same test in both orders, and the\n\
        outgoing key agrees since the last true segment to reach the client asks for key 2 in both.\n"
    );
}
