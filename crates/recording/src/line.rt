// The lines that are printed: document 02, Ticket 1. Assumes nothing.
ghost use Rattle.std.specs.Prelude.{◌≡◌, ◌+◌, ◌<◌, ◌≤◌, [], ◌++◌, length, drop};
ghost use Rattle.recording.specs.Lines.{decimal as decimal_of, verdict_line_of, line_text};

use rules::Verdict;
use std::marker::Model;

// What is printed at once: nothing; the answer to a segment, with its index, number and extension; 38 and the index of a record; a number
// alone.
#[derive(Clone, Copy, PartialEq, Eq, Debug)]
pub enum Line {
    Nothing,
    Segment(u64, u8, u32),
    Fault(u64),
    Refused(u8),
}

// "Accept prints as number 0; a drop's extension prints as 0."
pub(crate) fn verdict_line(index: u64, verdict: Verdict) -> Line
    ensures { result ≡ verdict_line_of index verdict }
{
    match verdict {
        Verdict::Accept(extension) => Line::Segment(index, 0, extension),
        Verdict::Pass => Line::Segment(index, 1, 0),
        Verdict::Drop(number) => Line::Segment(index, number, 0),
    }
}

// The digits of a number: the bytes from `from` on. What stands before them means nothing.
// Kept (project rule): no heap, so the digits stand in a fixed buffer.
#[derive(Clone, Copy)]
struct Digits {
    bytes: [u8; 20],
    from: usize,
}

fn decimal(n: u64) -> Digits
    ensures { (drop result.from result.bytes ≡ decimal_of n) × (result.from ≤ 20) }
{
    let mut bytes = [0u8; 20];
    let mut i: usize = 20;
    let mut rest = n;
    while 1 < i && 10 <= rest {
        i -= 1;
        bytes[i] = 48 + (rest % 10) as u8;
        rest /= 10;
    }
    bytes[i - 1] = 48 + (rest % 10) as u8;
    Digits { bytes, from: i - 1 }
}

// A line as bytes, which are the first `len` of a buffer. A contract sees those bytes alone: behind them stand zeros, so that the bytes of
// a line say what its buffer holds, and a line can be copied.
// Kept (project rule): no heap, so a line stands in a fixed buffer.
#[derive(Clone, Copy)]
pub struct Text {
    bytes: [u8; 64],
    len: usize,
}

impl Model for Text {
    ghost use Rattle.std.specs.Prelude.{ℕ, List, length, take, drop, replicate, ◌-◌, ◌≡◌, ◌≤◌};
    ghost use Rattle.octets.specs.Octets.{padded_of};
    ghost use Rattle.octets.specs.PaddedLaws.{padded-back, length-back};

    ghost Value = { List ℕ };

    ghost view = { λ t. take t.len t.bytes };

    ghost invariant = { λ t. (t.len ≤ 64) × (length t.bytes ≡ 64) × (drop t.len t.bytes ≡ replicate (64 - t.len) 0) };

    ghost inverse = { λ l. record { bytes = padded_of 64 l; len = length l } };

    ghost inverse_ok = { λ t h i. record {
      bytes = padded-back 64 t.len t.bytes h.0 h.1 h.2 i;
      len = length-back 64 t.len t.bytes h.0 h.1 i;
    } };
}

impl Text {
    fn new() -> Self
        ensures { result ≡ [] }
    {
        Text {
            bytes: [0; 64],
            len: 0,
        }
    }

    pub fn as_bytes(&self) -> &[u8]
        ensures { result.now ≡ self.now }
    {
        &self.bytes[..self.len]
    }

    fn put(self, s: &[u8]) -> Self
        requires { length self + length s.now ≤ 64 }
        ensures { result ≡ self ++ s.now }
    {
        let mut bytes = self.bytes;
        octets::copy_at(&mut bytes, self.len, s);
        Text {
            bytes,
            len: self.len + s.len(),
        }
    }

    fn put_number(self, n: u64) -> Self
        requires { length self + 20 ≤ 64 }
        ensures text { result ≡ self ++ decimal_of n }
        ensures few { length result ≤ length self + 20 }
    {
        let digits = decimal(n);
        self.put(&digits.bytes[digits.from..])
    }
}

// "index, verdict number, extension, in decimal with one space between"; "38 and the record's index"; a number alone.
#[tactic(auto, unfolding(crate::specs::Lines::line_text))]
pub fn text_of(line: Line) -> Text
    ensures text { result ≡ line_text line }
    ensures few { length result ≤ 64 }
{
    let t = Text::new();
    match line {
        Line::Nothing => t,
        Line::Segment(index, number, extension) => t
            .put_number(index)
            .put(b" ")
            .put_number(number as u64)
            .put(b" ")
            .put_number(extension as u64)
            .put(b"\n"),
        Line::Fault(index) => t.put(b"38 ").put_number(index).put(b"\n"),
        Line::Refused(number) => t.put_number(number as u64).put(b"\n"),
    }
}
