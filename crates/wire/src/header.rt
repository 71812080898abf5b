// The header of a TCP segment: document 01, "The option in a segment"; field places by RFC 793, section 3.1.
// Assumes nothing: each reader takes any bytes, and one that is not there counts as 0.
ghost use Rattle.std.specs.Prelude.{◌≡◌, ◌/◌, ◌%◌, ◌^◌, ◌<◌, get_or, eqb};
ghost use Rattle.octets.specs.Octets.{get16};
ghost use Rattle.wire.specs.Header.{source_port_of, destination_port_of, sequence as sequence_of, data_offset_of, header_end_of};
ghost use Rattle.wire.specs.Header.{syn as syn_of, ack as ack_of, well_sized_of, header_of_lem};

use crate::bytes::byte_at;
use crate::options::{Seen, of_segment};

// What a segment's header says, read once; `len` is the whole segment's length, as it is or as it was announced.
#[derive(Clone, Copy)]
pub struct Header {
    pub len: usize,
    // Where the header ends, in bytes.
    pub end: usize,
    pub source_port: u16,
    pub destination_port: u16,
    pub sequence: u32,
    pub syn: bool,
    pub ack: bool,
    // None: they are malformed.
    pub options: Option<Seen>,
}

// The two bytes at a place of the header as a number.
fn word_at(segment: &[u8], at: usize) -> u16
    requires { at < 20 }
    ensures { result ≡ get16 segment.now at }
{
    octets::be16(byte_at(segment, at), byte_at(segment, at + 1))
}

// A flag of byte 13, by its place, that of FIN being 0.
fn flag(segment: &[u8], bit: u32) -> bool
    requires { bit < 8 }
    ensures { result ≡ eqb (get_or segment.now 13 0 / 2 ^ bit % 2) 1 }
{
    (byte_at(segment, 13) >> bit) % 2 == 1
}

pub fn source_port(segment: &[u8]) -> u16
    ensures { result ≡ source_port_of segment.now }
{
    word_at(segment, 0)
}

pub fn destination_port(segment: &[u8]) -> u16
    ensures { result ≡ destination_port_of segment.now }
{
    word_at(segment, 2)
}

pub fn sequence(segment: &[u8]) -> u32
    ensures { result ≡ sequence_of segment.now }
{
    octets::be32(
        byte_at(segment, 4),
        byte_at(segment, 5),
        byte_at(segment, 6),
        byte_at(segment, 7),
    )
}

// The data offset, in words.
pub fn data_offset(segment: &[u8]) -> usize
    ensures { result ≡ data_offset_of segment.now }
{
    (byte_at(segment, 12) >> 4) as usize
}

// Where the header ends, in bytes.
pub fn header_end(segment: &[u8]) -> usize
    ensures { result ≡ header_end_of segment.now }
{
    4 * (byte_at(segment, 12) >> 4) as usize
}

pub fn syn(segment: &[u8]) -> bool
    ensures { result ≡ syn_of segment.now }
{
    flag(segment, 1)
}

pub fn ack(segment: &[u8]) -> bool
    ensures { result ≡ ack_of segment.now }
{
    flag(segment, 4)
}

// 20 to 65,535 bytes, a data offset of 5 words or more, and the header inside the segment.
pub fn well_sized(segment: &[u8]) -> bool
    ensures { result ≡ well_sized_of segment.now }
{
    (20..=65535).contains(&segment.len())
        && 5 <= data_offset(segment)
        && header_end(segment) <= segment.len()
}

// The header of a segment of `len` bytes, of which these are there: all of its header, or more. The data are not looked at.
pub fn header_of(bytes: &[u8], len: usize) -> Header
    ensures { result ≡ header_of_lem len bytes.now }
{
    Header {
        len,
        end: header_end(bytes),
        source_port: source_port(bytes),
        destination_port: destination_port(bytes),
        sequence: sequence(bytes),
        syn: syn(bytes),
        ack: ack(bytes),
        options: of_segment(bytes),
    }
}
