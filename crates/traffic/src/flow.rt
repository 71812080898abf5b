// Who sends a segment to whom: document 01, "Traffic keys", "'source' is whoever sent the segment".
// Traffic keys and pseudo-headers are made from it; document 02, Ticket 10, says what of it counts as zero there. Every value is a flow;
// where the family is not 4, addresses have sixteen bytes.
ghost use Rattle.std.specs.Prelude.{◌≡◌, ◌≤◌, length, take, eqb};
ghost use Rattle.keys.specs.Entry.{width};
ghost use Rattle.rules.specs.Mac.{leaving_hidden_of, arriving_hidden_of, pseudo_header as pseudo_header_of, blanked as blanked_of};
ghost use Rattle.traffic.specs.Flow.{flow_of, pseudo_end_of};

use crate::assembled::Assembled;
use keys::entry::{Secret, width_of};
use rules::Hidden;

// IPv4 uses the first four bytes of an address field; what stands behind them means nothing.
// Kept (may not change): `flow_of` gives each number a meaning as the family, all but 4 that of IPv6, and a pair's number is handed on.
#[derive(Clone, Copy)]
pub struct Flow {
    pub family: u8,
    pub source: [u8; 16],
    pub destination: [u8; 16],
    pub source_port: u16,
    pub destination_port: u16,
    pub source_isn: u32,
    pub destination_isn: u32,
}

// "flags 2 for the local and 4 for the remote side": of a segment that we sign our side is the source,
pub fn leaving_hidden(secret: Secret) -> Hidden
    ensures { result ≡ leaving_hidden_of secret }
{
    Hidden {
        source: secret.flags / 2 % 2 == 1,
        destination: secret.flags / 4 % 2 == 1,
    }
}

// and of one that arrives the destination.
pub fn arriving_hidden(secret: Secret) -> Hidden
    ensures { result ≡ arriving_hidden_of secret }
{
    let leaving = leaving_hidden(secret);
    Hidden {
        source: leaving.destination,
        destination: leaving.source,
    }
}

// What a pseudo-header of a segment of len bytes has behind its addresses, by their width.
pub(crate) fn pseudo_end(width: usize, len: usize) -> Assembled<8>
    ensures { result ≡ pseudo_end_of width len }
{
    let bytes = octets::bytes64(len as u64);
    if width == 4 {
        // RFC 9293 §3.1: zero, protocol 6, length
        return Assembled::new().push(&[0, 6]).push(&bytes[6..]);
    }
    // RFC 8200 §8.1: length, zero, next header 6
    Assembled::new().push(&bytes[4..]).push(&[0, 0, 0, 6])
}

impl Flow {
    // An address: the bytes of its field, the source's or the destination's, that the family uses.
    #[tactic(auto, unfolding(keys::specs::Entry::width))]
    pub(crate) fn used<'a>(&self, field: &'a [u8; 16]) -> &'a [u8]
        ensures value { result.now ≡ take (width self.now.family) field.now }
        ensures room { length result.now ≤ 16 }
    {
        &field[..width_of(self.family)]
    }

    // "the IP pseudo-header as for the checksum", of a segment of len bytes
    #[tactic(auto, unfolding(rules::specs::Mac::pseudo_header))]
    pub(crate) fn pseudo_header(&self, len: usize) -> Assembled<40>
        ensures { result ≡ pseudo_header_of (flow_of self.now).source (flow_of self.now).destination len }
    {
        let source = self.used(&self.source);
        let end = pseudo_end(source.len(), len);
        Assembled::new()
            .push(source)
            .push(self.used(&self.destination))
            .push(end.as_slice())
    }

    // The flow as the traffic key's context and the MAC's pseudo-header have it: the ISNs stay.
    pub(crate) fn blanked(mut self, hidden: Hidden) -> Self
        ensures { flow_of result ≡ blanked_of hidden (flow_of self) }
    {
        if hidden.source {
            self.source = [0; 16];
            self.source_port = 0;
        }
        if hidden.destination {
            self.destination = [0; 16];
            self.destination_port = 0;
        }
        self
    }
}
