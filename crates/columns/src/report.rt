// What is printed of a line, and the count of what came out as expected. Assumes nothing.
ghost use Rattle.std.specs.Prelude.{◌≡◌, ◌+◌, ◌%◌, ◌^◌, false, if◌then◌else◌};
ghost use Rattle.wire.specs.Bytes.{same_bytes};

use crate::hex::Hex;
use std::fmt;
use std::io::Print;
use wire::bytes::same;

// How many results there were, and how many of them were expected.
#[derive(Clone, Copy, Debug, Default, PartialEq, Eq)]
pub struct Tally {
    pub ok: u64,
    pub all: u64,
}

impl Tally {
    pub fn counted(self, ok: bool) -> Self
        ensures { result ≡ record { ok = (self.ok + (if ok then 1 else 0)) % 2 ^ 64; all = (self.all + 1) % 2 ^ 64 } }
    {
        Tally {
            ok: self.ok.wrapping_add(u64::from(ok)),
            all: self.all.wrapping_add(1),
        }
    }
}

impl fmt::Display for Tally {
    fn fmt<W: fmt::Write>(&self, f: &mut fmt::Formatter<W>) -> fmt::Result {
        write!(f, "{} of {} ok", self.ok, self.all)
    }
}

// A line that was not expected: it counts as one that came out otherwise.
// A write that fails is passed over, here and below: what was to be printed is not there, and all else goes on as it would.
pub fn unreadable(rt: &impl Print, line: &[u8]) -> bool
    ensures { result ≡ false }
{
    let _ = print!(rt; "CANNOT BE READ: ");
    let _ = rt.write_all(line);
    let _ = println!(rt);
    false
}

// What was computed, and whether it is what was expected.
pub fn result(rt: &impl Print, got: &[u8], want: &[u8]) -> bool
    ensures { result ≡ same_bytes got.now want.now }
{
    let ok = same(got, want);
    let _ = if ok {
        println!(rt; "{} ok", Hex(got))
    } else {
        println!(rt; "{} DIFFERS, expected {}", Hex(got), Hex(want))
    };
    ok
}
