// What is printed of a position, of a segment's kind, of its direction and of a verdict. Assumes nothing.
use crate::script::{Kind, Side};
use rules::Verdict;
use std::fmt;

// A 64-bit position: extension, colon, number.
#[derive(Drop)]
pub struct Position(pub u64);

impl fmt::Display for Position {
    fn fmt<W: fmt::Write>(&self, f: &mut fmt::Formatter<W>) -> fmt::Result {
        write!(f, "{}:{:08x}", self.0 >> 32, self.0 & 0xffffffff)
    }
}

// Where a segment comes from is told by whither it goes.
pub fn direction(from: Side) -> &'static str {
    match from {
        Side::Client => "to server",
        Side::Server => "to client",
    }
}

// What a numbered segment is; all but data name the segment that they are made from.
#[derive(Drop)]
pub struct What(pub u8);

impl fmt::Display for What {
    fn fmt<W: fmt::Write>(&self, f: &mut fmt::Formatter<W>) -> fmt::Result {
        let name = match Kind::of(self.0) {
            Kind::Data => return write!(f, "{:<21}", "data"),
            Kind::Again => "repeat of",
            Kind::Damaged => "damaged data of",
            Kind::WrongMac => "forged MAC of",
            Kind::UnknownKey => "forged KeyID of",
            Kind::FarAhead => "forged number of",
        };
        write!(f, "{name:<17}{:>2}  ", self.0.wrapping_sub(1))
    }
}

// The meanings of 20 to 29 and of 40; a number that none of them is is printed without one.
fn reason(number: u8) -> &'static str {
    match number {
        20 => "bad length or offset",
        21 => "malformed options",
        22 => "two signing options",
        23 => "pair not the state's",
        24 => "wrong for the stage",
        25 => "TCP-AO missing",
        26 => "KeyID has no entry",
        27 => "MAC length wrong",
        28 => "no position",
        29 => "MAC differs",
        40 => "checksum wrong",
        _ => "",
    }
}

// A verdict, in 30 places.
#[derive(Drop)]
pub struct Told(pub Verdict);

impl fmt::Display for Told {
    fn fmt<W: fmt::Write>(&self, f: &mut fmt::Formatter<W>) -> fmt::Result {
        match self.0 {
            Verdict::Accept(extension) => write!(f, "accept, extension {extension:<12}"),
            Verdict::Pass => write!(f, "{:<30}", "pass"),
            Verdict::Drop(number) => write!(f, "drop {number:>2}: {:<21}", reason(number)),
        }
    }
}
