// The MAC of a segment, before it is cut to the entry's MAC bytes: document 01, "What the MAC covers". The laws in specs/TagLaws say what
// its first bytes are in terms of the crate `rules`. Begin takes all that needs no data; data go in by MacContext::update, from where
// they lie. It assumes that TCP-AO and its MAC lie in a header of at most 60 bytes: judging knows it behind 20, 21 and 27, signing behind
// 30, 31 and 32.
ghost use Rattle.std.specs.Prelude.{◌≡◌, ◌+◌, ◌≤◌, length};
ghost use Rattle.traffic.specs.MacContext.{mac_view, fronted_by};
ghost use Rattle.traffic.specs.Flow.{flow_of};

use crate::context::MacContext;
use crate::derive::traffic_key;
use crate::flow::Flow;
use crate::front::Covered;
use keys::entry::Secret;
use rules::Hidden;

// Kept (no plainer): its two callers have the seven as values of their own; from here on they travel as one `Covered`.
pub fn begin(
    secret: Secret,
    hidden: Hidden,
    flow: Flow,
    extension: u32,
    at: usize,
    len: usize,
    header: &[u8],
) -> MacContext
    requires { (20 ≤ at) × (at + 4 + secret.mac_bytes ≤ length header.now) × (length header.now ≤ 60) }
    ensures { mac_view result ≡ fronted_by secret hidden (flow_of flow) extension at len header.now }
{
    let flow = flow.blanked(hidden);
    let covered = Covered {
        secret,
        hidden,
        flow,
        extension,
        at,
        len,
        header,
    };
    let front = covered.front();
    MacContext::new(secret.algorithm, traffic_key(secret, flow)).update(front.as_slice())
}
