// A packet of RFC 9235, sections 4 to 7: its traffic key, and what the end at which it arrives makes of it.
// A line's columns: section, algorithm, flags, source ISN, destination ISN, traffic key, source address,
// destination address, segment, and a remark on the checksum, which the MAC does not cover: the RFC prints some
// that are wrong, and the file has the right one in their place. So each packet is judged with its right checksum,
// and once with another. A column that cannot be read counts as zeros, or as no bytes, and the packet is then
// judged so. Assumes nothing.
use crate::answers::{Answer, compared};
use crate::ends::End;
use crate::run::Run;
use columns::hex;
use columns::lines::column;
use columns::report::result;
use keys::entry::Pair;
use rules::{State, Verdict};
use std::io::Print;
use wire::header;

// The end at which the line's segment arrives.
fn receiver(line: &[u8], segment: &[u8]) -> End {
    let source = column(line, 6);
    let pair = Pair {
        family: if source.len() == 8 { 4 } else { 6 },
        local_port: header::destination_port(segment),
        remote_port: header::source_port(segment),
        local: hex::sixteen(column(line, 7)),
        remote: hex::sixteen(source),
    };
    End::new(
        pair,
        hex::figure(column(line, 2)),
        hex::figure(column(line, 1)),
    )
}

// A packet as it arrives: its line, the end that it arrives at, and its bytes, those of the line or with another checksum.
#[derive(Drop)]
struct Arriving<'a> {
    line: &'a [u8],
    end: End,
    segment: &'a [u8],
}

fn is_open(state: State) -> bool {
    state.conn.stage == 1
}

impl Arriving<'_> {
    fn title(&self, rt: &impl Print) {
        let _ = print!(rt; "RFC 9235 ");
        let _ = rt.write_all(column(self.line, 0));
        let algorithm = if hex::figure(column(self.line, 1)) == 1 {
            "HMAC-SHA-1-96"
        } else {
            "AES-128-CMAC-96"
        };
        let _ = print!(rt; " {algorithm} ");
    }

    // The key as computed, and whether it is the line's.
    fn key_expected(&self, rt: &impl Print) -> bool {
        let want = hex::decode::<20>(column(self.line, 5)).unwrap_or_default();
        let source_isn = hex::word(column(self.line, 3));
        let destination_isn = hex::word(column(self.line, 4));
        let got = self.end.traffic_key(source_isn, destination_isn);
        self.title(rt);
        let _ = print!(rt; "traffic key ");
        result(rt, &got, &want)
    }

    // Every packet is to be accepted with extension 0.
    fn expected(&self, rt: &impl Print, call: &str, verdict: Verdict) -> bool {
        self.title(rt);
        let _ = print!(rt; "{call} ");
        compared(
            rt,
            "accept extension ",
            Answer::from(verdict),
            Answer::good(0),
        )
    }

    // A bare SYN is judged without a state, and opens the server with the ISN of the SYN+ACK in the next
    // line. The client that sent it is opened too, for the SYN+ACK to arrive at.
    fn opening(&self, rt: &impl Print, answer: &[u8], run: &mut Run) {
        let checked = self.end.judge_syn(self.segment);
        let isn = hex::word(column(answer, 3));
        let opened = self.end.open_passive(self.segment, isn);
        let client = self.end.mirrored();
        run.count(self.expected(rt, "judge_syn", checked.verdict));
        run.count(self.expected(rt, "open_passive", opened.verdict));
        run.client = client.open_active(header::sequence(self.segment));
        run.server = opened.state;
    }

    fn at_server(&self, rt: &impl Print, run: &mut Run) {
        let judged = self.end.judge(self.segment, run.server);
        run.count(self.expected(rt, "judge at the server", judged.verdict));
        run.server = judged.state;
    }

    fn at_client(&self, rt: &impl Print, run: &mut Run) {
        let call = if is_open(run.client) {
            "judge at the client"
        } else {
            "judge at the opening client"
        };
        let judged = self.end.judge(self.segment, run.client);
        run.count(self.expected(rt, call, judged.verdict));
        run.client = judged.state;
    }

    fn is_bare_syn(&self) -> bool {
        header::syn(self.segment) && !header::ack(self.segment)
    }

    // What the end says to the segment, wherever it stands; its state stays.
    fn verdict(&self, run: &Run) -> Verdict {
        if self.is_bare_syn() {
            self.end.judge_syn(self.segment).verdict
        } else if self.end.is_server() {
            self.end.judge(self.segment, run.server).verdict
        } else {
            self.end.judge(self.segment, run.client).verdict
        }
    }

    // Document 02, Ticket 5: with one bit of its checksum changed a packet is dropped with 40.
    fn dropped(&self, rt: &impl Print, run: &Run) -> bool {
        self.title(rt);
        let _ = print!(rt; "(");
        let _ = rt.write_all(column(self.line, 9));
        let _ = print!(rt; ") a bit of the checksum changed ");
        compared(
            rt,
            "accept extension ",
            Answer::from(self.verdict(run)),
            Answer::bad(40),
        )
    }
}

// `answer` is the next line.
pub fn packet(rt: &impl Print, line: &[u8], answer: &[u8], run: &mut Run) {
    let segment = hex::decode::<256>(column(line, 8)).unwrap_or_default();
    let end = receiver(line, &segment);
    let packet = Arriving {
        line,
        end,
        segment: &segment,
    };
    run.count(packet.key_expected(rt));
    let mut wrong = hex::decode::<256>(column(line, 8)).unwrap_or_default();
    if let Some(byte) = wrong.get_mut(17) {
        *byte ^= 1;
    }
    let changed = Arriving {
        line,
        end,
        segment: &wrong,
    };
    run.count(changed.dropped(rt, run));
    if packet.is_bare_syn() {
        packet.opening(rt, answer, run);
    } else if end.is_server() {
        packet.at_server(rt, run);
    } else {
        packet.at_client(rt, run);
    }
}
