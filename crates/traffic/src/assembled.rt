// Bytes put one part behind another before they go into a MAC or a sum, in an array that has room for N. What follows are leaves: each
// asks for the room that it needs.
ghost use Rattle.std.specs.Prelude.{◌≡◌, [], ◌++◌, ◌+◌, ◌≤◌, length};
ghost use Rattle.rules.specs.Mac.{blank as blank_of, blank_if_of};

use std::marker::Model;

// The parts are the first `len` bytes; behind them are zeros, so that the parts say what the whole array holds, and it can be copied.
// Kept (project rule): no heap, so room and length stand together, under an invariant; `Digits`, `Text` and `Words` lie in programs.
#[derive(Clone, Copy)]
pub struct Assembled<const N: usize> {
    bytes: [u8; N],
    len: usize,
}

impl<const N: usize> Model for Assembled<N> {
    ghost use Rattle.std.specs.Prelude.{ℕ, List, length, take, drop, replicate, ◌-◌, ◌≡◌, ◌≤◌};
    ghost use Rattle.octets.specs.Octets.{padded_of};
    ghost use Rattle.octets.specs.PaddedLaws.{padded-back, length-back};

    ghost Value = { List ℕ };

    ghost view = { λ a. take a.len a.bytes };

    ghost invariant = { λ a. (a.len ≤ N) × (length a.bytes ≡ N) × (drop a.len a.bytes ≡ replicate (N - a.len) 0) };

    ghost inverse = { λ l. record { bytes = padded_of N l; len = length l } };

    ghost inverse_ok = { λ a h i. record {
      bytes = padded-back N a.len a.bytes h.0 h.1 h.2 i;
      len = length-back N a.len a.bytes h.0 h.1 i;
    } };
}

impl<const N: usize> Assembled<N> {
    // Kept (no plainer): `[u8; N]` has no `Default` for every N, so that none can be derived, and one by hand would be this again.
    pub fn new() -> Self
        ensures { result ≡ [] }
    {
        Assembled {
            bytes: [0; N],
            len: 0,
        }
    }

    pub fn push(mut self, part: &[u8]) -> Self
        requires { length self + length part.now ≤ N }
        ensures { result ≡ self.entry ++ part.now }
    {
        let start = self.len;
        let end = start + part.len();
        let bytes = &mut self.bytes[..];
        bytes[start..end].copy_from_slice(part);
        self.len = end;
        self
    }

    // n bytes from i on made zero.
    pub fn blank(mut self, i: usize, n: usize) -> Self
        requires { i + n ≤ length self }
        ensures value { result ≡ blank_of i n self.entry }
        ensures len { length result ≡ length self.entry }
    {
        let bytes = &mut self.bytes[..];
        bytes[i..i + n].fill(0);
        self
    }

    // So of a side that is hidden, and nothing of another.
    // Kept (no plainer): a link of a chain of calls; with a closure in place of the flag each caller would write the `if`.
    pub fn blank_if(self, hidden: bool, i: usize, n: usize) -> Self
        requires { i + n ≤ length self }
        ensures value { result ≡ blank_if_of hidden i n self.entry }
        ensures len { length result ≡ length self.entry }
    {
        if hidden { self.blank(i, n) } else { self }
    }

    pub fn as_slice(&self) -> &[u8]
        ensures value { result.now ≡ self.now }
        ensures room { length result.now ≤ N }
    {
        &self.bytes[..self.len]
    }
}
