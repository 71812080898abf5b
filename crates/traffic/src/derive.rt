// Traffic keys: document 01, "Traffic keys"; RFC 5925 §5.2, RFC 5926 §3.1. The definition is `traffic_key_of` of the crate `rules`.
// Every secret and every flow has one.
ghost use Rattle.std.specs.Prelude.{◌≡◌, ◌≤◌, length};
ghost use Rattle.keys.specs.Entry.{key_of};
ghost use Rattle.rules.specs.Mac.{context as context_of, derivation_input_of, aes_key_of, traffic_key_of};
ghost use Rattle.traffic.specs.Padded.{padded, digest_room};
ghost use Rattle.traffic.specs.Flow.{flow_of};

use crate::assembled::Assembled;
use crate::context::hmac_hash;
use crate::flow::Flow;
use keys::algorithm::output_bits;
use keys::entry::Secret;
use mac::hash_algorithm::DIGEST_ROOM;

// "one byte 1, the six bytes "TCP-AO""
const LABEL: [u8; 7] = *b"\x01TCP-AO";

// "The context is source address, destination address, source port, destination port, source ISN, destination ISN"
#[tactic(auto, unfolding(rules::specs::Mac::context))]
fn context(flow: &Flow) -> Assembled<44>
    ensures { result ≡ context_of (flow_of flow.now) }
{
    Assembled::new()
        .push(flow.used(&flow.source))
        .push(flow.used(&flow.destination))
        .push(&octets::bytes16(flow.source_port))
        .push(&octets::bytes16(flow.destination_port))
        .push(&octets::bytes32(flow.source_isn))
        .push(&octets::bytes32(flow.destination_isn))
}

#[tactic(auto, unfolding(rules::specs::Mac::derivation_input_of))]
fn derivation_input(bits: u16, flow: &Flow) -> Assembled<53>
    ensures { result ≡ derivation_input_of bits (flow_of flow.now) }
{
    let context = context(flow);
    Assembled::new()
        .push(&LABEL)
        .push(context.as_slice())
        .push(&octets::bytes16(bits))
}

// "AES-CMAC under the master key if that has 16 bytes; otherwise under AES-CMAC of the master key with an all-zero key"
#[tactic(auto, unfolding(rules::specs::Mac::aes_key_of))]
fn aes_key(key: &[u8]) -> [u8; 16]
    ensures { result ≡ aes_key_of key.now }
{
    match <[u8; 16]>::try_from(key) {
        Ok(whole) => whole,
        Err(_) => mac::cmac::cmac([0; 16], key),
    }
}

// The master key: as many bytes as its length says, but never more than there are.
pub(crate) fn master_key(secret: &Secret) -> &[u8]
    ensures { result.now ≡ key_of secret.now }
{
    &secret.key[..(secret.key_len as usize).min(80)]
}

// The traffic key, the algorithm's MAC under the master key; zeros stand behind one that is shorter than its room.
// Kept (project rule): no heap, and a key's length is known at run time alone, so it stands in the room of the longest.
// Kept (no plainer): the two MACs that there are, a line to each, as the document has them.
#[tactic(auto, unfolding(rules::specs::Mac::traffic_key_of, rules::specs::Mac::applied, mac::specs::Hmac::filled))]
pub fn traffic_key(secret: Secret, flow: Flow) -> [u8; DIGEST_ROOM]
    ensures { result ≡ padded digest_room (traffic_key_of secret (flow_of flow)) }
{
    let input = derivation_input(output_bits(secret.algorithm), &flow);
    let key = master_key(&secret);
    match hmac_hash(secret.algorithm) {
        Some(hash) => mac::hmac::hmac(hash, key, input.as_slice()),
        None => octets::padded(&mac::cmac::cmac(aes_key(key), input.as_slice())),
    }
}
