// Document 01, "Examples", those that are only run: "data offset 11 signs, 12 gives 32; 65,519 bytes
// sign, 65,520 give 32". Assumes nothing.
ghost use Rattle.std.specs.Prelude.{◌≤◌};

use crate::answers::{Answer, compared};
use crate::numbers::client;
use crate::segment::{ACK, header};
use columns::report::Tally;
use rules::State;
use std::io::Print;

// What signing answers to a segment of n bytes with a data offset of so many words. Its options and
// its data are zeros: an option of kind 0 ends the reading.
fn expected(rt: &impl Print, words: u8, n: usize, state: State, want: Answer) -> bool
    requires { (20 ≤ n) × (n ≤ 65536) }
{
    let end = client();
    let mut segment = [0; 65536];
    let mut out = [0; 65536];
    segment[..20].copy_from_slice(&header(end.pair, 1, words, ACK));
    let signed = end.sign(&segment[..n], &mut out, state);
    let _ = print!(rt; "document 01, data offset {words}, {n} bytes ");
    compared(rt, "signed length ", Answer::from(signed), want)
}

// The state is the open client's.
pub fn all(rt: &impl Print, state: State, tally: Tally) -> Tally {
    tally
        .counted(expected(rt, 11, 44, state, Answer::good(60)))
        .counted(expected(rt, 12, 48, state, Answer::bad(32)))
        .counted(expected(rt, 5, 65519, state, Answer::good(65535)))
        .counted(expected(rt, 5, 65520, state, Answer::bad(32)))
}
