// Traffic keys and the MAC of a segment (RFC 5925 §5.1 and §5.2, RFC 5926), TCP MD5's digest (RFC 2385 §2.0), and the sum of its checksum
// (RFC 1071), against the definitions of the crate `rules`, specs/Mac, specs/Digest and specs/Checksum.
// What other crates may use: `flow::Flow`, `derive::traffic_key`, `context::MacContext`, `tag::begin`, `digest::begin` and `sums`.
#![tactic(auto)]

mod assembled;
pub mod context;
pub mod derive;
pub mod digest;
pub mod flow;
mod front;
pub mod sums;
pub mod tag;
