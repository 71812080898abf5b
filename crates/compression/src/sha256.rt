// SHA-256's compression of one block: FIPS 180-4 §6.2.2, with sixteen words of the schedule in place of sixty-four, as in §6.1.3; and the
// digest that the last chaining value is.
ghost use Rattle.std.specs.Prelude.{◌≡◌, ◌%◌, ◌<◌, slice_index};
ghost use Rattle.compression.specs.Sha256Block.{Sigma0, Sigma1, sigma0 as sigma0_of, sigma1 as sigma1_of};
ghost use Rattle.compression.specs.Sha256Block.{initial as initial_of, next as next_of, T1, T2, round as round_of, step as step_of};
ghost use Rattle.compression.specs.Sha256Block.{compress_words, digest as digest_of};

use crate::rounds::{Rounds, Schedule, next_words, sixteen_rounds, sum};
use crate::words::{ch, maj};

struct Sha256;

// Kept (no plainer): (4.4) and (4.5) of FIPS 180-4 are two functions, which differ in numbers; so they are here.
fn big_sigma0(x: u32) -> u32
    ensures { result ≡ Sigma0 x }
{
    x.rotate_right(2) ^ x.rotate_right(13) ^ x.rotate_right(22)
}

fn big_sigma1(x: u32) -> u32
    ensures { result ≡ Sigma1 x }
{
    x.rotate_right(6) ^ x.rotate_right(11) ^ x.rotate_right(25)
}

// Kept (no plainer): so are (4.6) and (4.7).
fn sigma0(x: u32) -> u32
    ensures { result ≡ sigma0_of x }
{
    x.rotate_right(7) ^ x.rotate_right(18) ^ (x >> 3)
}

fn sigma1(x: u32) -> u32
    ensures { result ≡ sigma1_of x }
{
    x.rotate_right(17) ^ x.rotate_right(19) ^ (x >> 10)
}

// The two sums of a round.
fn first(e: u32, f: u32, g: u32, h: u32, k: u32, w: u32) -> u32
    ensures { result ≡ T1 e f g h k w }
{
    h.wrapping_add(big_sigma1(e))
        .wrapping_add(ch(e, f, g))
        .wrapping_add(k)
        .wrapping_add(w)
}

fn second(a: u32, b: u32, c: u32) -> u32
    ensures { result ≡ T2 a b c }
{
    big_sigma0(a).wrapping_add(maj(a, b, c))
}

// One round, with the values of K_t and W_t.
fn round(s: [u32; 8], k: u32, w: u32) -> [u32; 8]
    ensures { result ≡ round_of k w s }
{
    let [a, b, c, d, e, f, g, h] = s;
    let t = first(e, f, g, h, k, w);
    let u = second(a, b, c);
    [t.wrapping_add(u), a, b, c, d.wrapping_add(t), e, f, g]
}

// The constants K_0 to K_63.
static K: [u32; 64] = [
    0x428a_2f98,
    0x7137_4491,
    0xb5c0_fbcf,
    0xe9b5_dba5,
    0x3956_c25b,
    0x59f1_11f1,
    0x923f_82a4,
    0xab1c_5ed5,
    0xd807_aa98,
    0x1283_5b01,
    0x2431_85be,
    0x550c_7dc3,
    0x72be_5d74,
    0x80de_b1fe,
    0x9bdc_06a7,
    0xc19b_f174,
    0xe49b_69c1,
    0xefbe_4786,
    0x0fc1_9dc6,
    0x240c_a1cc,
    0x2de9_2c6f,
    0x4a74_84aa,
    0x5cb0_a9dc,
    0x76f9_88da,
    0x983e_5152,
    0xa831_c66d,
    0xb003_27c8,
    0xbf59_7fc7,
    0xc6e0_0bf3,
    0xd5a7_9147,
    0x06ca_6351,
    0x1429_2967,
    0x27b7_0a85,
    0x2e1b_2138,
    0x4d2c_6dfc,
    0x5338_0d13,
    0x650a_7354,
    0x766a_0abb,
    0x81c2_c92e,
    0x9272_2c85,
    0xa2bf_e8a1,
    0xa81a_664b,
    0xc24b_8b70,
    0xc76c_51a3,
    0xd192_e819,
    0xd699_0624,
    0xf40e_3585,
    0x106a_a070,
    0x19a4_c116,
    0x1e37_6c08,
    0x2748_774c,
    0x34b0_bcb5,
    0x391c_0cb3,
    0x4ed8_aa4a,
    0x5b9c_ca4f,
    0x682e_6ff3,
    0x748f_82ee,
    0x78a5_636f,
    0x84c8_7814,
    0x8cc7_0208,
    0x90be_fffa,
    0xa450_6ceb,
    0xbef9_a3f7,
    0xc671_78f2,
];

impl Rounds<8> for Sha256 {
    ghost count = { 64 };

    ghost place = { λ t. t % 16 };

    ghost step = { step_of };

    fn round(t: usize, w: &[u32; 16], s: [u32; 8]) -> [u32; 8]
        requires { t < 64 }
        ensures { result ≡ step_of t (slice_index w.now (t % 16)) s }
    {
        round(s, K[t], w[t % 16])
    }
}

impl Schedule for Sha256 {
    ghost next_word = { next_of };

    fn next(w: &[u32; 16], i: usize) -> u32 {
        sigma1(w[(i + 14) % 16])
            .wrapping_add(w[(i + 9) % 16])
            .wrapping_add(sigma0(w[(i + 1) % 16]))
            .wrapping_add(w[i])
    }
}

// The chaining value before the first block.
pub fn initial() -> [u32; 8]
    ensures { result ≡ initial_of }
{
    [
        0x6a09_e667,
        0xbb67_ae85,
        0x3c6e_f372,
        0xa54f_f53a,
        0x510e_527f,
        0x9b05_688c,
        0x1f83_d9ab,
        0x5be0_cd19,
    ]
}

// The chaining value after the block of the words w.
pub fn compress(h: [u32; 8], words: [u32; 16]) -> [u32; 8]
    ensures { result ≡ compress_words h words }
{
    let mut w = words;
    let s = sixteen_rounds::<8, Sha256>(h, &w, 0);
    next_words::<Sha256>(&mut w);
    let s = sixteen_rounds::<8, Sha256>(s, &w, 16);
    next_words::<Sha256>(&mut w);
    let s = sixteen_rounds::<8, Sha256>(s, &w, 32);
    next_words::<Sha256>(&mut w);
    sum(h, sixteen_rounds::<8, Sha256>(s, &w, 48))
}

// The chaining value as bytes.
pub fn digest(h: [u32; 8]) -> [u8; 32]
    ensures { result ≡ digest_of h }
{
    octets::padded(h.map(u32::to_be_bytes).as_flattened())
}
