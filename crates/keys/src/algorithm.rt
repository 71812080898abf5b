// The two algorithms of RFC 5926 and HMAC-SHA-256, with their fixed numbers: document 01, "Traffic keys", "Each algorithm has its own fixed
// numbers"; document 02, Ticket 13.
// An algorithm that is not listed has 0 for each, and no valid table holds one.
ghost use Rattle.std.specs.Prelude.{◌≡◌};
ghost use Rattle.keys.specs.Algorithm.{traffic_key_bytes_of, mac_bytes_of, output_bits_of};

// Algorithm 1.
// Kept (no plainer): no function takes an algorithm as its type, since a table's byte names it at run time: a trait would bound none.
#[derive(Clone, Copy)]
pub struct HmacSha1_96;

impl HmacSha1_96 {
    pub const TRAFFIC_KEY_BYTES: usize = 20;

    pub const MAC_BYTES: usize = 12;

    pub const OUTPUT_BITS: u16 = 160;
}

// Algorithm 2.
#[derive(Clone, Copy)]
pub struct Aes128Cmac96;

impl Aes128Cmac96 {
    pub const TRAFFIC_KEY_BYTES: usize = 16;

    pub const MAC_BYTES: usize = 12;

    pub const OUTPUT_BITS: u16 = 128;
}

// Algorithm 3.
#[derive(Clone, Copy)]
pub struct HmacSha256;

impl HmacSha256 {
    pub const TRAFFIC_KEY_BYTES: usize = 32;

    pub const MAC_BYTES: usize = 12;

    pub const OUTPUT_BITS: u16 = 256;
}

// Algorithm 19, of the MD5 table alone: TCP MD5, which has no traffic keys.
#[derive(Clone, Copy)]
pub struct TcpMd5;

impl TcpMd5 {
    pub const MAC_BYTES: usize = 16;
}

// Kept (no plainer): a table's byte names the algorithm, and each is one match over it; a trait or an enum adds a fourth match.
// Kept (may not change): 0 of an algorithm that is not listed (`number` of each).
pub fn traffic_key_bytes(algorithm: u8) -> usize
    ensures number { result ≡ traffic_key_bytes_of algorithm }
    ensures first { HmacSha1_96.TRAFFIC_KEY_BYTES ≡ traffic_key_bytes_of 1 }
    ensures second { Aes128Cmac96.TRAFFIC_KEY_BYTES ≡ traffic_key_bytes_of 2 }
    ensures third { HmacSha256.TRAFFIC_KEY_BYTES ≡ traffic_key_bytes_of 3 }
{
    match algorithm {
        1 => HmacSha1_96::TRAFFIC_KEY_BYTES,
        2 => Aes128Cmac96::TRAFFIC_KEY_BYTES,
        3 => HmacSha256::TRAFFIC_KEY_BYTES,
        _ => 0,
    }
}

// The MAC's length where the entry's kind has no byte for it.
// Kept (may not change): 0 of an algorithm that is not listed: the clause `number`.
pub fn mac_bytes(algorithm: u8) -> u8
    ensures number { result ≡ mac_bytes_of algorithm }
    ensures first { HmacSha1_96.MAC_BYTES ≡ mac_bytes_of 1 }
    ensures second { Aes128Cmac96.MAC_BYTES ≡ mac_bytes_of 2 }
    ensures third { HmacSha256.MAC_BYTES ≡ mac_bytes_of 3 }
    ensures md5 { TcpMd5.MAC_BYTES ≡ mac_bytes_of 19 }
{
    match algorithm {
        1 => HmacSha1_96::MAC_BYTES as u8,
        2 => Aes128Cmac96::MAC_BYTES as u8,
        3 => HmacSha256::MAC_BYTES as u8,
        19 => TcpMd5::MAC_BYTES as u8,
        _ => 0,
    }
}

// Kept (may not change): 0 of an algorithm that is not listed: the clause `number`.
pub fn output_bits(algorithm: u8) -> u16
    ensures number { result ≡ output_bits_of algorithm }
    ensures first { HmacSha1_96.OUTPUT_BITS ≡ output_bits_of 1 }
    ensures second { Aes128Cmac96.OUTPUT_BITS ≡ output_bits_of 2 }
    ensures third { HmacSha256.OUTPUT_BITS ≡ output_bits_of 3 }
{
    match algorithm {
        1 => HmacSha1_96::OUTPUT_BITS,
        2 => Aes128Cmac96::OUTPUT_BITS,
        3 => HmacSha256::OUTPUT_BITS,
        _ => 0,
    }
}
