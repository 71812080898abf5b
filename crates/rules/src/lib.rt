// The rules of a connection, by TCP-AO or by MD5: the types that the calls take and give. What the calls do with them is defined in specs/;
// the code is in `states`, `checks` and `tcpao`. Document 01, "Positions", "A connection's life", "Numbers given back"; document 02,
// Ticket 9.
// Nothing is assumed of a value of these types: each is a value that a call may get.
#![tactic(auto)]

ghost use Rattle.std.specs.Prelude.{◌≡◌};
ghost use Rattle.rules.specs.declared.Outcome.TheVariants.{Bad};
ghost use Rattle.rules.specs.Calls.{index_of, verdict_of_lem};

use keys::entry::Pair;
use std::marker::Model;
use tables::{Index, Refusal};

// Where a number names no entry.
// Kept (may not change): zeros beside every number that names no entry: `index_of` and the theorems of specs/Demand2 say `no_index`.
pub const NO_INDEX: Index = Index { table: 0, entry: 0 };

// What the tests of an arriving or outgoing segment come to: its position and RNextKeyID; pass; or document 01's or 02's number, with the
// entry's table and index beside 10 to 17 and 45, and zeros beside every other number.
// Kept (may not change): a refusal is a number in `RefusedAmong`, `RefusedBounds` (specs/GivenNumbers) and the rows of specs/Sentences.
#[derive(Clone, Copy, PartialEq, Eq, Debug)]
pub enum Outcome {
    Good(u64, u8),
    Passed,
    Bad(u8, Index),
}

impl Outcome {
    // The entry beside 10 to 17 and 45, else none.
    pub fn index(self) -> Index
        ensures { result ≡ index_of self }
    {
        match self {
            Outcome::Bad(_, index) => index,
            _ => NO_INDEX,
        }
    }
}

// A refusal is a number that applies, with the entry beside it.
impl From<Refusal> for Outcome {
    ghost from_gives = { λ refusal outcome. outcome ≡ Bad refusal.number refusal.index };

    fn from(refusal: Refusal) -> Outcome {
        Outcome::Bad(refusal.number, refusal.index)
    }
}

// Of which sides of a segment address and port count as zero under the MAC (document 02, Ticket 10).
#[derive(Clone, Copy)]
pub struct Hidden {
    pub source: bool,
    pub destination: bool,
}

// "A verdict is accept with its extension, pass, or drop with a number."
// Kept (may not change): three answers, which the theorems of specs/History and specs/Passes read; a Result has two.
#[derive(Clone, Copy, PartialEq, Eq, Debug)]
pub enum Verdict {
    Accept(u32),
    Pass,
    Drop(u8),
}

// The extension of a position is what stands above its low 32 bits.
impl From<Outcome> for Verdict {
    ghost from_gives = { λ outcome verdict. verdict ≡ verdict_of_lem outcome };

    fn from(outcome: Outcome) -> Verdict {
        match outcome {
            Outcome::Good(position, _) => Verdict::Accept((position >> 32) as u32),
            Outcome::Passed => Verdict::Pass,
            Outcome::Bad(number, _) => Verdict::Drop(number),
        }
    }
}

// What is fixed while a connection stays open: the way it was opened, the pair as this end holds it, and both ISNs. Stage 1 is open, any
// other opening; way 1 is TCP MD5 (RFC 2385), any other TCP-AO.
// Kept (may not change): `states::state::decode` takes any byte as stage and way, and its contract has `encode` give it back.
#[derive(Clone, Copy, PartialEq, Eq, Debug)]
pub struct Connection {
    pub stage: u8,
    pub way: u8,
    pub pair: Pair,
    pub isn: u32,
    pub peer_isn: u32,
}

// How many drops are counted, 20 to 29, 40, 46 and 47, each in a place of its own: `slots` of specs/Connection.
pub const SLOTS: usize = 13;

// A connection's state. `sent` is the reference of the direction that this end signs, `seen` that of the arriving one; `send_id` is the
// outgoing key's SendID (current_key), `ask_id` the RecvID asked of the peer (rnext_key). `drops` counts the drops 20 to 29,
// 40, 46 and 47.
#[derive(Clone, Copy, PartialEq, Eq, Debug)]
pub struct State {
    pub conn: Connection,
    pub sent: u64,
    pub seen: u64,
    pub send_id: u8,
    pub ask_id: u8,
    pub accepted: u64,
    pub drops: [u64; SLOTS],
}

// "The new state stands beside it." The index is an entry's where a table is refused (10 to 17, 45), else zeros.
// Kept (may not change): theorems read verdict, index and state of every judgement: specs/Demand2, specs/Sentences.
#[derive(Clone, Copy, PartialEq, Eq, Debug)]
pub struct Judged {
    pub verdict: Verdict,
    pub index: Index,
    pub state: State,
}

// What a bare SYN gets that is judged without a state.
// Kept (may not change): theorems read verdict and index of every judgement: specs/Demand2, specs/Passes.
#[derive(Clone, Copy, PartialEq, Eq, Debug)]
pub struct SynJudged {
    pub verdict: Verdict,
    pub index: Index,
}

// What signing gives: how many bytes were written, and the new state.
#[derive(Clone, Copy, PartialEq, Eq, Debug)]
pub struct SignedSegment {
    pub len: usize,
    pub state: State,
}

// A segment that arrives, between the addresses that it came with: whole, and any bytes of any lengths. A contract sees the three.
#[derive(Drop)]
pub struct LentArrival<'a> {
    pub source: &'a [u8],
    pub destination: &'a [u8],
    pub segment: &'a [u8],
}

impl<'a> Model for LentArrival<'a> {
    ghost use Rattle.rules.specs.Connection.{Arrival, arrival_of};

    ghost Value = { Arrival };

    ghost view = { λ a. arrival_of a.source.now a.destination.now a.segment.now };
}
