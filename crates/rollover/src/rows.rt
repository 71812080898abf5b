// The tables of the opening and of the first run. Assumes nothing.
// A write that fails is passed over, here and in `report`.
ghost use Rattle.std.specs.Prelude.{◌≤◌, length};

use crate::key_tables::name;
use crate::script::{Side, sender};
use crate::segments::Sent;
use crate::words::{Position, Told, What, direction};
use rules::{Judged, Verdict};
use std::fmt;
use std::io::Print;

// Where a segment truly lies, if anywhere.
#[derive(Drop)]
struct Place(Option<u64>);

impl fmt::Display for Place {
    fn fmt<W: fmt::Write>(&self, f: &mut fmt::Formatter<W>) -> fmt::Result {
        match self.0 {
            Some(place) => write!(f, "{}", Position(place)),
            None => write!(f, "{:<10}", "-"),
        }
    }
}

fn sequence(segment: &[u8]) -> u32
    requires { 24 ≤ length segment.now }
{
    u32::from_be_bytes([segment[4], segment[5], segment[6], segment[7]])
}

// What a segment carries, what it got, and under which key its receiver, whose outgoing SendID this is, signs from then on.
fn judged(rt: &impl Print, segment: &[u8], place: Option<u64>, verdict: Verdict, outgoing: u8)
    requires { 24 ≤ length segment.now }
{
    let number = sequence(segment);
    let key = name(segment[22]);
    let asks = name(segment[23]);
    let signs = name(outgoing);
    let _ = println!(rt;
        "{number:08x}  {}  {key:<5}  {asks:<5}  {}{signs:<5}",
        Place(place),
        Told(verdict)
    );
}

pub fn arrival(rt: &impl Print, no: u8, sent: Sent, got: Judged) {
    let to = direction(sender(no));
    let _ = print!(rt; " {no:>2}  {to:<15}{}", What(no));
    judged(rt, &sent.bytes, sent.place, got.verdict, got.state.send_id);
}

// A segment of the opening lies at its own number, with extension 0.
pub fn opening(
    rt: &impl Print,
    from: Side,
    what: &str,
    segment: &[u8; 36],
    verdict: Verdict,
    outgoing: u8,
) {
    let to = direction(from);
    let _ = print!(rt; "     {to:<15}{what:<21}");
    let place = Some(u64::from(sequence(segment)));
    judged(rt, segment, place, verdict, outgoing);
}

pub fn opening_title(rt: &impl Print) {
    let _ = print!(rt;
        "Opening, with both ISNs just below the rollover. \"asks\" is the key that a segment asks its receiver to sign under,\n\
        \"signs\" the key that the receiver signs under from then on.\n"
    );
    columns(rt);
}

fn columns(rt: &impl Print) {
    let _ = println!(rt;
        "No.  direction      what                 number    lies at     key    asks   verdict                       signs"
    );
}

pub fn first_title(rt: &impl Print) {
    let _ = print!(rt;
        "\nFirst run, in the order of arrival; No. is the order of sending. A damaged copy of a segment has other data\n\
        under the old checksum. A forgery is a copy in which the MAC, the KeyID or the sequence number is changed and the\n\
        checksum is made right again. Nobody signed these, so they lie nowhere.\n"
    );
    columns(rt);
}

pub fn asking(rt: &impl Print) {
    let _ = print!(rt;
        "     The server's operator asks that the client sign under key 2. Segments 10 to 12 say so; 7 to 9 were signed\n\
        \x20    before, and where one comes late the client goes back to key 1 until the next that asks for key 2. What it sends\n\
        \x20    then is signed under key 2. Forgery 16, with its number far ahead, comes first and moves no reference.\n"
    );
}
