// The opening: an active one at the client, a passive one at the server. Assumes nothing.
use crate::runs::Ends;
use crate::script::Side;
use crate::segments::{SYN, SYN_ACK, header};
use crate::{calls, rows};
use rules::State;
use std::io::Print;

// Both ISNs lie just below the rollover.
const CLIENT_ISN: u32 = 0xffffffc0;

const SERVER_ISN: u32 = 0xffffffd8;

// Signs a segment without data: header 20, TCP-AO 16.
fn signed(side: Side, number: u32, flags: u8, state: State) -> ([u8; 36], State) {
    let mut out = [0; 36];
    let after = calls::sign(side, &header(state, number, flags), &mut out, state);
    (out, after)
}

// The SYN is first judged without a state.
pub fn open(rt: &impl Print) -> Ends {
    rows::opening_title(rt);
    let (syn, waiting) = signed(
        Side::Client,
        CLIENT_ISN,
        SYN,
        calls::open_active(CLIENT_ISN),
    );
    let stateless = calls::judge_syn(&syn);
    rows::opening(rt, Side::Client, "SYN, no state yet", &syn, stateless, 0);
    let passive = calls::open_passive(&syn, SERVER_ISN);
    let signs = passive.state.send_id;
    rows::opening(rt, Side::Client, "SYN, opens", &syn, passive.verdict, signs);
    let (syn_ack, server) = signed(Side::Server, SERVER_ISN, SYN_ACK, passive.state);
    let active = calls::judge(Side::Client, &syn_ack, waiting);
    let signs = active.state.send_id;
    rows::opening(
        rt,
        Side::Server,
        "SYN+ACK, opens",
        &syn_ack,
        active.verdict,
        signs,
    );
    Ends {
        client: active.state,
        server,
    }
}
