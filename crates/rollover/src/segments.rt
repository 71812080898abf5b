// Segments: as TCP hands them over, and as they are on the way. Assumes nothing.
use crate::script::{Kind, Side, offset, sender};
use rules::State;

pub const SYN: u8 = 2;

pub const ACK: u8 = 16;

pub const SYN_ACK: u8 = SYN | ACK;

// A segment of data without its signature, and with it: header 20, TCP-AO 16, data 24.
const PLAIN: usize = 44;

pub const SIGNED: usize = 60;

// A header of 20 bytes from this end: ports, number, what it acknowledges (not looked at here), data offset 5, flags, window 4096, then
// checksum and urgent pointer zero.
pub fn header(state: State, number: u32, flags: u8) -> [u8; 20] {
    let [p0, p1] = state.conn.pair.local_port.to_be_bytes();
    let [q0, q1] = state.conn.pair.remote_port.to_be_bytes();
    let [n0, n1, n2, n3] = number.to_be_bytes();
    let [a0, a1, a2, a3] = state.conn.peer_isn.to_be_bytes();
    [
        p0, p1, q0, q1, n0, n1, n2, n3, a0, a1, a2, a3, 80, flags, 16, 0, 0, 0, 0, 0,
    ]
}

// The segment of data numbered `no`.
pub fn unsigned(state: State, no: u8) -> [u8; PLAIN] {
    let number = state.conn.isn.wrapping_add(offset(no));
    let mut segment = [0; PLAIN];
    segment[..20].copy_from_slice(&header(state, number, ACK));
    segment[20..].copy_from_slice(b"measured value: 2.41 m \n");
    segment
}

// Where it truly lies, if it was signed.
#[derive(Clone, Copy)]
pub struct Sent {
    pub bytes: [u8; SIGNED],
    pub place: Option<u64>,
}

// The right checksum for what was changed, as whoever forges a segment would write it.
fn make_right(bytes: &mut [u8; SIGNED], side: Side) {
    bytes[16..18].copy_from_slice(&[0, 0]);
    let sum = traffic::sums::segment_sum(&side.address(), &side.other().address(), bytes);
    bytes[16..18].copy_from_slice(&(65535 - sum).to_be_bytes());
}

// What the segment numbered `no` is made to on the way, from the one numbered before it: a copy, changed as its kind says.
pub fn forged(before: Sent, no: u8) -> Sent {
    let kind = Kind::of(no);
    let Some((at, bits)) = kind.change() else {
        return before;
    };
    let mut bytes = before.bytes;
    if let Some(byte) = bytes.get_mut(at) {
        *byte ^= bits;
    }
    if kind != Kind::Damaged {
        make_right(&mut bytes, sender(no));
    }
    Sent { bytes, place: None }
}
