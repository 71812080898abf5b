// RFC 9187's sequence of numbers, each really signed by the client and judged by the server. No step
// from the largest number so far is 2^31 or more, so one signer signs them all in the order of the
// file, on one connection that was opened with the client's ISN, and so its reference, at 0.
// A line's columns: extension, sequence number; one that cannot be read counts as 0. Assumes nothing.
use crate::answers::{Answer, compared};
use crate::ends::{End, SERVER_PORT};
use crate::run::Run;
use crate::segment::{ACK, SYN, SYN_ACK, header};
use columns::hex;
use columns::lines::column;
use columns::report::Tally;
use keys::entry::Pair;
use rules::{SignedSegment, State};
use std::io::Print;
use tables::Refusal;

// RFC 9235's IPv4 addresses, all options covered, HMAC-SHA-1-96.
pub fn client() -> End {
    let pair = Pair {
        family: 4,
        local_port: 59863,
        remote_port: SERVER_PORT,
        local: hex::sixteen(b"0a0b0c0d"),
        remote: hex::sixteen(b"ac1b1c1d"),
    };
    End::new(pair, 1, 1)
}

const CLIENT_ISN: u32 = 0;

const SERVER_ISN: u32 = 0x11c14261;

// The state behind a signing: a refusal leaves it as it was.
fn state_after(signed: Result<SignedSegment, Refusal>, before: State) -> State {
    match signed {
        Ok(segment) => segment.state,
        Err(_) => before,
    }
}

// Both ends, opened by a signed SYN and a signed SYN+ACK. A state that a call would refuse to make is
// the empty one, on which no line below comes out as expected.
pub fn opened(tally: Tally) -> Run {
    let client = client();
    let server = client.mirrored();
    let opening = client.open_active(CLIENT_ISN);
    let mut syn = [0; 36];
    let header_syn = header(client.pair, CLIENT_ISN, 5, SYN);
    let asked = state_after(client.sign(&header_syn, &mut syn, opening), opening);
    let passive = server.open_passive(&syn, SERVER_ISN);
    let mut syn_ack = [0; 36];
    let header_syn_ack = header(server.pair, SERVER_ISN, 5, SYN_ACK);
    let signed = server.sign(&header_syn_ack, &mut syn_ack, passive.state);
    Run {
        client: client.judge(&syn_ack, asked).state,
        server: state_after(signed, passive.state),
        tally,
    }
}

pub fn numbered(rt: &impl Print, line: &[u8], run: &mut Run) {
    let extension = hex::figure(column(line, 0));
    let number = hex::word(column(line, 1));
    let end = client();
    let mut segment = [0; 36];
    let signed = end.sign(&header(end.pair, number, 5, ACK), &mut segment, run.client);
    let judged = end.mirrored().judge(&segment, run.server);
    let _ = print!(rt; "RFC 9187 {number:08x} ");
    run.count(compared(
        rt,
        "accept extension ",
        Answer::from(judged.verdict),
        Answer::good(u64::from(extension)),
    ));
    run.client = state_after(signed, run.client);
    run.server = judged.state;
}
