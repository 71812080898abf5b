// The rounds of AES-128 (FIPS 197, 5.1) on words, by the table of `mix_table`.
// Definitions: specs/Aes; what words mean: specs/AesWords. Assumes nothing.
ghost use Rattle.std.specs.Prelude.{◌≡◌, ℕ, List};
ghost use Rattle.mac.specs.Aes as Fips;
ghost use Rattle.mac.specs.AesWords as Words;

use crate::{aes, mix_table, words};

// A rotation by one byte. Two and three of them are compiled to one rotation.
fn rotl8(x: u32) -> u32
    ensures { Words.bytes result ≡ Words.rotated (Words.bytes x) }
{
    x.rotate_left(8)
}

// What a round makes of a column. Of the columns a, b, c and d ShiftRows takes the rows 0 to 3; k is the column's word of the round key.
trait Column {
    ghost mix: { List ℕ → List ℕ };

    // Kept (no plainer): these parameters are words for one line; a struct of them would be made for each column and taken apart again.
    fn column(a: u32, b: u32, c: u32, d: u32, k: u32) -> u32
        ensures { Words.bytes result ≡ Fips.add_word (mix (Fips.sub_word (Words.rows_of a b c d))) (Words.bytes k) };
}

// Of every round but the last.
struct Mixed;

impl Column for Mixed {
    ghost mix = { Words.mix_word };

    fn column(a: u32, b: u32, c: u32, d: u32, k: u32) -> u32
        ensures { Words.bytes result ≡ Fips.add_word (Words.mix_word (Fips.sub_word (Words.rows_of a b c d))) (Words.bytes k) }
    {
        let row0 = mix_table::entry(a);
        let row1 = rotl8(mix_table::entry(b >> 8));
        let row2 = rotl8(rotl8(mix_table::entry(c >> 16)));
        let row3 = rotl8(rotl8(rotl8(mix_table::entry(d >> 24))));
        row0 ^ row1 ^ row2 ^ row3 ^ k
    }
}

// Of the last round, which has no MixColumns.
struct Unmixed;

impl Column for Unmixed {
    ghost mix = { λ w. w };

    fn column(a: u32, b: u32, c: u32, d: u32, k: u32) -> u32
        ensures { Words.bytes result ≡ Fips.add_word (Fips.sub_word (Words.rows_of a b c d)) (Words.bytes k) }
    {
        let row0 = mix_table::sub(a);
        let row1 = mix_table::sub(b >> 8);
        let row2 = mix_table::sub(c >> 16);
        let row3 = mix_table::sub(d >> 24);
        words::word(row0, row1, row2, row3) ^ k
    }
}

// A round: ShiftRows as the places of the columns, and what the round makes of each.
fn round<C: Column>(s: [u32; 4], k: [u32; 4]) -> [u32; 4]
    ensures { Words.state result ≡ Words.round_by C.mix s k }
{
    // Kept (no plainer): the sixteen places are ShiftRows itself; by an index they would be sums modulo 4.
    [
        C::column(s[0], s[1], s[2], s[3], k[0]),
        C::column(s[1], s[2], s[3], s[0], k[1]),
        C::column(s[2], s[3], s[0], s[1], k[2]),
        C::column(s[3], s[0], s[1], s[2], k[3]),
    ]
}

// The cipher with its eleven round keys, as words.
#[derive(Drop)]
pub(crate) struct Cipher {
    pub(crate) keys: [[u32; 4]; 11],
}

impl Cipher {
    pub(crate) fn new(key: [u8; 16]) -> Self
        ensures { Words.round_keys result.keys ≡ Fips.key_expansion key }
    {
        Cipher {
            keys: aes::expand_words(key),
        }
    }

    pub(crate) fn encrypt(&self, block: [u8; 16]) -> [u8; 16]
        ensures { result ≡ Fips.cipher (Words.round_keys self.now.keys) block }
    {
        let mut s = words::add_round_key(words::load(block), self.keys[0]);
        // Kept (no plainer): r is the number of the round and of its key, as in Figure 5; the invariant counts the rounds by it.
        for r in 1..10 {
            let next = round::<Mixed>(s, self.keys[r]);
            s = next;
        }
        words::store(round::<Unmixed>(s, self.keys[10]))
    }
}
