// One record of a recording: how long it is, and what is wrong with what is there of it. Document 02, Ticket 1. Assumes nothing.
ghost use Rattle.std.specs.Prelude.{◌≡◌, ◌≤◌};
ghost use Rattle.recording.specs.Recording.{record_bytes_of, placed as placed_of, faulty as faulty_of};

use wire::bytes::byte_at;

// The longest record, its kind among its bytes.
pub const RECORD_BYTES: usize = 1601;

#[tactic(auto, unfolding(crate::specs::Recording::record_bytes_of))]
pub(crate) fn record_bytes(kind: u8) -> usize
    ensures { (result ≡ record_bytes_of kind) × (48 ≤ result) × (result ≤ 1601) }
{
    match kind {
        1 => 131,
        2 => 48,
        _ => RECORD_BYTES,
    }
}

// Entries and the one opening stand before it, segments behind it.
fn placed(stage: u8, kind: u8) -> bool
    ensures { result ≡ placed_of stage kind }
{
    match stage {
        0 => kind == 1 || kind == 2,
        1 => kind == 3,
        _ => false,
    }
}

// A byte that is not there yet counts as 0.
#[tactic(auto, unfolding(crate::specs::Recording::faulty))]
pub(crate) fn faulty(stage: u8, bytes: &[u8]) -> bool
    ensures { result ≡ faulty_of stage bytes.now }
{
    let kind = byte_at(bytes, 0);
    if !placed(stage, kind) {
        return true;
    }
    match kind {
        1 => byte_at(bytes, 1) > 129,
        3 => octets::be16(byte_at(bytes, 1), byte_at(bytes, 2)) > 1598,
        _ => false,
    }
}
