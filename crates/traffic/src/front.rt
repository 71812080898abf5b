// What the MAC covers before the data: document 01, "What the MAC covers"; RFC 5925 §5.1. The definition is `front` of the crate `rules`.
// Any length is taken as the segment's.
ghost use Rattle.std.specs.Prelude.{◌≡◌, ◌+◌, ◌≤◌, length};
ghost use Rattle.keys.specs.Entry.{all_options};
ghost use Rattle.rules.specs.Mac.{ports_blanked_of, covered_header as covered_header_of, front as front_of_lem};
ghost use Rattle.traffic.specs.Flow.{flow_of};

use crate::assembled::Assembled;
use crate::flow::Flow;
use keys::entry::Secret;
use rules::Hidden;

// A segment of len bytes under its MAC: the entry's secret; which sides count as zero; the flow, blanked already; the extension of the
// sequence number; and the header, of at most 60 bytes, with TCP-AO inside it at byte `at`, which is 20 or behind it.
#[derive(Drop)]
pub struct Covered<'a> {
    pub secret: Secret,
    pub hidden: Hidden,
    pub flow: Flow,
    pub extension: u32,
    pub at: usize,
    pub len: usize,
    pub header: &'a [u8],
    ghost placed: { (20 ≤ at) × (at + 4 + secret.mac_bytes ≤ length header.now) × (length header.now ≤ 60) },
}

impl Covered<'_> {
    // "the TCP header with checksum and MAC bytes zero", and the ports of hidden sides; "With flag 0 only the header's first 20 bytes,
    // data offset as sent, and TCP-AO remain."
    #[tactic(auto, unfolding(rules::specs::Mac::covered_header))]
    fn covered_header(&self) -> Assembled<60>
        ensures { result
            ≡ covered_header_of (all_options self.now.secret) self.now.at self.now.secret.mac_bytes
            (ports_blanked_of self.now.hidden self.now.header.now) }
    {
        let mac_bytes = self.secret.mac_bytes as usize;
        let zeroed = Assembled::<60>::new()
            .push(self.header)
            .blank_if(self.hidden.source, 0, 2)
            .blank_if(self.hidden.destination, 2, 2)
            .blank(16, 2)
            .blank(self.at + 4, mac_bytes);
        if self.secret.flags % 2 == 1 {
            return zeroed;
        }
        let end = self.at + 4 + mac_bytes;
        let all = zeroed.as_slice();
        Assembled::new().push(&all[..20]).push(&all[self.at..end])
    }

    // "In this order: the extension (4 bytes); the IP pseudo-header ..; the TCP header ..; the data"
    #[tactic(auto, unfolding(rules::specs::Mac::front))]
    pub(crate) fn front(&self) -> Assembled<104>
        ensures { result
            ≡ front_of_lem self.now.secret self.now.hidden (flow_of self.now.flow) self.now.extension self.now.at self.now.len
            self.now.header.now }
    {
        let pseudo_header = self.flow.pseudo_header(self.len);
        let header = self.covered_header();
        Assembled::new()
            .push(&octets::bytes32(self.extension))
            .push(pseudo_header.as_slice())
            .push(header.as_slice())
    }
}
