// A TCP header of 20 bytes, as it is before it is signed. Assumes nothing.
use keys::entry::Pair;

pub const SYN: u8 = 0x02;

pub const ACK: u8 = 0x10;

pub const SYN_ACK: u8 = SYN | ACK;

// The header that the end of this pair sends; `words` is the data offset.
pub fn header(pair: Pair, sequence: u32, words: u8, flags: u8) -> [u8; 20] {
    let [l0, l1] = pair.local_port.to_be_bytes();
    let [r0, r1] = pair.remote_port.to_be_bytes();
    let [s0, s1, s2, s3] = sequence.to_be_bytes();
    [
        l0,
        l1,
        r0,
        r1,
        s0,
        s1,
        s2,
        s3,
        0,
        0,
        0,
        0,
        words << 4,
        flags,
        255,
        255,
        0,
        0,
        0,
        0,
    ]
}
