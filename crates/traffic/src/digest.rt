// The digest of TCP MD5: RFC 2385 §2.0, document 02, Ticket 9. The definition is `segment_digest` of the crate `rules`, and
// specs/DigestLaws says that the first sixteen bytes of a finished context are it. Begin takes all that needs no data but the key; data
// go in by MacContext::update, from where they lie, and MacContext::finish puts the key behind them. It assumes of the header only that
// its first 20 bytes are there: judging knows it behind 20, signing behind 30.
ghost use Rattle.std.specs.Prelude.{◌≡◌, ◌≤◌, length};
ghost use Rattle.rules.specs.Digest.{digest_front};
ghost use Rattle.traffic.specs.Flow.{flow_of};
ghost use Rattle.traffic.specs.MacContext.{mac_view, digested_by};

use crate::assembled::Assembled;
use crate::context::MacContext;
use crate::flow::Flow;
use keys::entry::Secret;
use mac::hash::HashContext;
use mac::hash_algorithm::HashAlgorithm;

// "the TCP pseudo-header", of a segment of len bytes, and "the TCP header, excluding options, and assuming a checksum of zero"
// Kept (no plainer): 20 ≤ length is a fact of leaves, which callers have from `well_sized`; a type of its own would hold the same bytes.
#[tactic(auto, using(crate::proofs::Pieces::zeros_first), unfolding(rules::specs::Digest::digest_front))]
fn front(flow: Flow, len: usize, header: &[u8]) -> Assembled<60>
    requires { 20 ≤ length header.now }
    ensures { result ≡ digest_front (flow_of flow).source (flow_of flow).destination len header.now }
{
    let pseudo_header = flow.pseudo_header(len);
    let fixed: Assembled<20> = Assembled::new().push(&header[..20]).blank(16, 2);
    Assembled::new()
        .push(pseudo_header.as_slice())
        .push(fixed.as_slice())
}

pub fn begin(secret: Secret, flow: Flow, len: usize, header: &[u8]) -> MacContext
    requires { 20 ≤ length header.now }
    ensures { mac_view result ≡ digested_by secret (flow_of flow) len header.now }
{
    let front = front(flow, len, header);
    let hash = HashContext::new(HashAlgorithm::Md5).update(HashAlgorithm::Md5, front.as_slice());
    MacContext::Digest(hash, secret)
}
