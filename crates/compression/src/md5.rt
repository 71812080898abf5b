// MD5's handling of one block of sixteen words: RFC 1321 §3.4; and the digest that the registers are at the end, §3.5.
ghost use Rattle.std.specs.Prelude.{◌≡◌, ◌%◌, ◌<◌, [], ◌∷◌, slice_index};
ghost use Rattle.compression.specs.Md5Block.{bytes_low64, initial as initial_of, F, G, H as HOf, I};
ghost use Rattle.compression.specs.Md5Block.{place_of, shift_of, function_of, operation as operation_of, step as step_of};
ghost use Rattle.compression.specs.Md5Block.{compress_words, digest as digest_of};

use crate::rounds::{Rounds, sixteen_rounds, sum};

struct Md5;

// The functions of the four rounds, and that of operation t of all 64.
fn f(x: u32, y: u32, z: u32) -> u32
    ensures { result ≡ F x y z }
{
    (x & y) | (!x & z)
}

fn g(x: u32, y: u32, z: u32) -> u32
    ensures { result ≡ G x y z }
{
    (x & z) | (y & !z)
}

fn h(x: u32, y: u32, z: u32) -> u32
    ensures { result ≡ HOf x y z }
{
    x ^ y ^ z
}

fn i(x: u32, y: u32, z: u32) -> u32
    ensures { result ≡ I x y z }
{
    y ^ (x | !z)
}

// Kept (no plainer): RFC 1321 gives the four functions by stretches of t, and so does this; t is a constant where it is called.
// Kept (no plainer): t < 64 is the fact of a loop's counter; a type of round numbers would be made and unmade in each round.
fn function(t: usize, x: u32, y: u32, z: u32) -> u32
    requires { t < 64 }
    ensures { result ≡ function_of t x y z }
{
    if t < 16 {
        return f(x, y, z);
    }
    if t < 32 {
        return g(x, y, z);
    }
    if t < 48 {
        return h(x, y, z);
    }
    i(x, y, z)
}

// Which word of the block operation t takes. The document lists them; in the four rounds they go in steps of 1, 5, 3 and 7.
fn place(t: usize) -> usize
    requires { t < 64 }
    ensures { (result ≡ place_of t) × (result < 16) }
{
    if t < 16 {
        return t;
    }
    if t < 32 {
        return (5 * t + 1) % 16;
    }
    if t < 48 {
        return (3 * t + 5) % 16;
    }
    7 * t % 16
}

// By how much operation t rotates: one of its round's four amounts, in turn.
fn in_turn(t: usize, a: u32, b: u32, c: u32, d: u32) -> u32
    ensures { result ≡ slice_index (a ∷ b ∷ c ∷ d ∷ []) (t % 4) }
{
    let m = t % 4;
    if m == 0 {
        return a;
    }
    if m == 1 {
        return b;
    }
    if m == 2 {
        return c;
    }
    d
}

fn shift(t: usize) -> u32
    requires { t < 64 }
    ensures { (result ≡ shift_of t) × (0 < result) × (result < 32) }
{
    if t < 16 {
        return in_turn(t, 7, 12, 17, 22);
    }
    if t < 32 {
        return in_turn(t, 5, 9, 14, 20);
    }
    if t < 48 {
        return in_turn(t, 4, 11, 16, 23);
    }
    in_turn(t, 6, 10, 15, 21)
}

// The table T.
static T: [u32; 64] = [
    0xd76a_a478,
    0xe8c7_b756,
    0x2420_70db,
    0xc1bd_ceee,
    0xf57c_0faf,
    0x4787_c62a,
    0xa830_4613,
    0xfd46_9501,
    0x6980_98d8,
    0x8b44_f7af,
    0xffff_5bb1,
    0x895c_d7be,
    0x6b90_1122,
    0xfd98_7193,
    0xa679_438e,
    0x49b4_0821,
    0xf61e_2562,
    0xc040_b340,
    0x265e_5a51,
    0xe9b6_c7aa,
    0xd62f_105d,
    0x0244_1453,
    0xd8a1_e681,
    0xe7d3_fbc8,
    0x21e1_cde6,
    0xc337_07d6,
    0xf4d5_0d87,
    0x455a_14ed,
    0xa9e3_e905,
    0xfcef_a3f8,
    0x676f_02d9,
    0x8d2a_4c8a,
    0xfffa_3942,
    0x8771_f681,
    0x6d9d_6122,
    0xfde5_380c,
    0xa4be_ea44,
    0x4bde_cfa9,
    0xf6bb_4b60,
    0xbebf_bc70,
    0x289b_7ec6,
    0xeaa1_27fa,
    0xd4ef_3085,
    0x0488_1d05,
    0xd9d4_d039,
    0xe6db_99e5,
    0x1fa2_7cf8,
    0xc4ac_5665,
    0xf429_2244,
    0x432a_ff97,
    0xab94_23a7,
    0xfc93_a039,
    0x655b_59c3,
    0x8f0c_cc92,
    0xffef_f47d,
    0x8584_5dd1,
    0x6fa8_7e4f,
    0xfe2c_e6e0,
    0xa301_4314,
    0x4e08_11a1,
    0xf753_7e82,
    0xbd3a_f235,
    0x2ad7_d2bb,
    0xeb86_d391,
];

// One operation, with the value f of its round's function, x of X[k] and t of T[i]. The registers are renamed, so that the next one is the
// same again.
fn operation(s: [u32; 4], f: u32, x: u32, t: u32, n: u32) -> [u32; 4]
    requires { (0 < n) × (n < 32) }
    ensures { result ≡ operation_of f x t n s }
{
    let [a, b, c, d] = s;
    let sum = a.wrapping_add(f).wrapping_add(x).wrapping_add(t);
    [d, b.wrapping_add(sum.rotate_left(n)), b, c]
}

impl Rounds<4> for Md5 {
    ghost count = { 64 };

    ghost place = { place_of };

    ghost step = { step_of };

    fn round(t: usize, w: &[u32; 16], s: [u32; 4]) -> [u32; 4]
        requires { t < 64 }
        ensures { result ≡ step_of t (slice_index w.now (place_of t)) s }
    {
        operation(
            s,
            function(t, s[1], s[2], s[3]),
            w[place(t)],
            T[t],
            shift(t),
        )
    }
}

// The registers before the first block.
pub fn initial() -> [u32; 4]
    ensures { result ≡ initial_of }
{
    [0x6745_2301, 0xefcd_ab89, 0x98ba_dcfe, 0x1032_5476]
}

// The registers after the block of the words x.
pub fn compress(h: [u32; 4], x: [u32; 16]) -> [u32; 4]
    ensures { result ≡ compress_words h x }
{
    let s = sixteen_rounds::<4, Md5>(h, &x, 0);
    let s = sixteen_rounds::<4, Md5>(s, &x, 16);
    let s = sixteen_rounds::<4, Md5>(s, &x, 32);
    sum(h, sixteen_rounds::<4, Md5>(s, &x, 48))
}

// The registers as bytes, and a count of bits, the lowest byte first.
// Kept (no plainer): one line in each hash, of its own byte order and size; a generic one would be given both here in the same line.
pub fn digest(h: [u32; 4]) -> [u8; 16]
    ensures { result ≡ digest_of h }
{
    octets::padded(h.map(u32::to_le_bytes).as_flattened())
}

pub fn count_bytes(x: u64) -> [u8; 8]
    ensures { result ≡ bytes_low64 x }
{
    x.to_le_bytes()
}
