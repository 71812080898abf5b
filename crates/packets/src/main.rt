// Runs the packets of RFC 9235 and the numbers of RFC 9187 in data/ through the calls of `tcpao`, and
// document 01's examples that are only run. Each result is printed beside what is expected of it.
// Nothing here is a theorem: the vectors are run and compared. Assumes nothing.
#![tactic(auto)]

mod answers;
mod ends;
mod limits;
mod numbers;
mod packet;
mod run;
mod segment;

use columns::file;
use columns::lines::{Lines, is_remark};
use columns::report::Tally;
use run::Run;
use std::io::Print;
use std::rt::Files;

#[derive(Clone, Copy)]
enum Suite {
    Rfc9235,
    Rfc9187,
}

fn one_line(rt: &impl Print, suite: Suite, line: &[u8], next: &[u8], run: &mut Run) {
    if is_remark(line) {
        return;
    }
    // Kept (no plainer): there are two files, each is read for one of them, and this is the one place that asks which.
    match suite {
        Suite::Rfc9235 => packet::packet(rt, line, next, run),
        Suite::Rfc9187 => numbers::numbered(rt, line, run),
    }
}

// A file that cannot be read counts as a result that is not ok.
fn file(rt: &(impl Files + Print), suite: Suite, name: &str, run: &mut Run) {
    let mut room = [0; 65536];
    let Some(text) = file::text(rt, name, &mut room) else {
        run.count(false);
        return;
    };
    let mut lines = Lines::new(text).peekable();
    while let Some(line) = lines.next() {
        let next = lines.peek().copied().unwrap_or_default();
        one_line(rt, suite, line, next, run);
    }
}

fn main(rt: HostRuntime) {
    let mut packets = numbers::opened(Tally::default());
    file(&rt, Suite::Rfc9235, "rfc9235.txt", &mut packets);
    let open = numbers::opened(packets.tally);
    let mut numbers = open;
    file(&rt, Suite::Rfc9187, "rfc9187.txt", &mut numbers);
    let tally = limits::all(&rt, open.client, numbers.tally);
    let _ = println!(rt; "{tally}");
}
