// The sum of the TCP checksum: document 02, Ticket 5, over document 01's pseudo-header. The definition is `segment_sum_of` of the crate
// `rules`; a sum under way is the crate `checksum`'s. Assumes nothing: addresses of any length may come.
ghost use Rattle.std.specs.Prelude.{◌≡◌, length};
ghost use Rattle.checksum.specs.Running.{begun, added};
ghost use Rattle.rules.specs.Mac.{pseudo_header};
ghost use Rattle.rules.specs.Checksum.{segment_sum_of};

use crate::flow::pseudo_end;
use checksum::Sum;

// The sum of a pseudo-header, with which that of a segment of len bytes begins.
#[tactic(auto, using(crate::proofs::SumPieces::pseudo_added))]
pub fn pseudo_sum(source: &[u8], destination: &[u8], len: usize) -> Sum
    ensures { result ≡ added begun (pseudo_header source.now destination.now len) }
{
    let end = pseudo_end(source.len(), len);
    Sum::start()
        .add(source)
        .add(destination)
        .add(end.as_slice())
}

// A segment's "one's complement sum, pseudo-header and checksum included".
// Kept (may not change): `judge` and `judge_syn` of `tcpao`, which docs name, take these parameters one by one, and all hand them on.
#[tactic(auto, using(crate::proofs::SumPieces::segment_added))]
pub fn segment_sum(source: &[u8], destination: &[u8], segment: &[u8]) -> u16
    ensures { result ≡ segment_sum_of source.now destination.now segment.now }
{
    pseudo_sum(source, destination, segment.len())
        .add(segment)
        .finish()
}
