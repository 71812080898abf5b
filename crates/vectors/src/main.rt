// Runs the published vectors in data/ and prints, one line each, what was computed and whether it
// is what the document expects. Nothing here is a theorem: the vectors are run and compared.
// Assumes nothing.
#![tactic(auto)]

mod pieces;
mod report;
mod suites;

use columns::file;
use columns::lines::{Lines, is_remark};
use columns::report::{Tally, unreadable};
use mac::hash_algorithm::HashAlgorithm;
use std::io::Print;
use std::rt::Files;
use suites::Suite;

// Each file of data/, in the order in which they are run.
const FILES: [(&str, Suite); 7] = [
    ("fips180.txt", Suite::Hash(HashAlgorithm::Sha1)),
    ("fips180-256.txt", Suite::Hash(HashAlgorithm::Sha256)),
    ("rfc1321.txt", Suite::Hash(HashAlgorithm::Md5)),
    ("fips197.txt", Suite::Fips197),
    ("rfc2202.txt", Suite::Hmac(HashAlgorithm::Sha1)),
    ("rfc4231.txt", Suite::Hmac(HashAlgorithm::Sha256)),
    ("rfc4493.txt", Suite::Rfc4493),
];

// A file that cannot be read counts as a line that is not ok.
fn run(rt: &(impl Files + Print), name: &str, suite: Suite, before: Tally) -> Tally {
    let mut room = [0; 65536];
    let Some(text) = file::text(rt, name, &mut room) else {
        return before.counted(false);
    };
    let mut tally = before;
    let mut key = [0; 16];
    for (line, number) in Lines::new(text).zip(1..=u64::MAX) {
        if let Some(named) = suites::key_of(line) {
            key = named;
        }
        if is_remark(line) {
            continue;
        }
        let _ = print!(rt; "{name}:{number} ");
        let ok = suite
            .judged(rt, line, key)
            .unwrap_or_else(|| unreadable(rt, line));
        tally = tally.counted(ok);
    }
    tally
}

fn main(rt: HostRuntime) {
    let mut tally = Tally::default();
    for (name, suite) in FILES {
        tally = run(&rt, name, suite, tally);
    }
    let _ = println!(rt; "{tally}");
}
