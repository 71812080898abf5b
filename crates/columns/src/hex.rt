// Bytes spelled in hexadecimal, two digits to a byte, in lower case, as the vector files have them.
// Assumes nothing.
ghost use Rattle.std.specs.Prelude.{◌≡◌, ◌*◌, ◌+◌, ◌^◌, ◌<◌, ◌&&◌, replicate, Some, None, IfSome, if◌then◌else◌, option_map};
ghost use Rattle.octets.specs.Octets.{get32};
ghost use Rattle.columns.specs.Hex.{is_digit_of, digit as digit_of, figure as figure_of};
ghost use Rattle.columns.specs.Hex.{bytes, paired, fits as fits_of, filled};

use arrayvec::ArrayVec;
use std::fmt;

// The value of a digit.
#[tactic(auto, unfolding(crate::specs::Hex::digit))]
fn digit(c: u8) -> Option<u8>
    ensures value { result ≡ (if is_digit_of c then Some (digit_of c) else None) }
    ensures upper_bound { IfSome result (λ d. d < 16) }
{
    match c {
        b'0'..=b'9' => Some(c - b'0'),
        b'a'..=b'f' => Some(c - b'a' + 10),
        _ => None,
    }
}

// The byte that two digits spell.
fn pair(high: u8, low: u8) -> Option<u8>
    ensures { result ≡ (if is_digit_of high && is_digit_of low then Some (digit_of high * 16 + digit_of low) else None) }
{
    Some(digit(high)? * 16 + digit(low)?)
}

// The bytes of a column that is digits alone, an even number of them, where they are at most N.
#[tactic(auto, using(crate::proofs::Spelling::read_pairs, std::proofs::lemmas::Grind::common_steps))]
fn pairs<const N: usize>(text: &[u8]) -> Option<ArrayVec<u8, N>>
    ensures { option_map (λ v. v.items) result ≡ (if paired text.now N then Some (bytes text.now) else None) }
{
    let mut out = ArrayVec::new();
    let mut rest = text;
    while let [high, low, behind @ ..] = rest {
        out.try_push(pair(*high, *low)?).ok()?;
        rest = behind;
    }
    if rest.is_empty() { Some(out) } else { None }
}

// The bytes that a column spells, where it spells any and at most N: "-" stands for none.
#[tactic(auto, using(crate::proofs::Spelling::read_whole, std::proofs::lemmas::Grind::common_steps))]
pub fn decode<const N: usize>(text: &[u8]) -> Option<ArrayVec<u8, N>>
    ensures { option_map (λ v. v.items) result ≡ (if fits_of text.now N then Some (bytes text.now) else None) }
{
    match text {
        [] => None,
        [only] => {
            if *only == b'-' {
                Some(ArrayVec::new())
            } else {
                None
            }
        }
        _ => pairs(text),
    }
}

// N bytes by value; what the column lacks of them is 0, and so are all where it spells none.
fn padded<const N: usize>(text: &[u8]) -> [u8; N]
    requires { N < 2 ^ 32 }
    ensures { result ≡ filled text.now (replicate N 0) }
{
    let mut out = [0; N];
    if let Some(bytes) = decode::<N>(text) {
        out[..bytes.len()].copy_from_slice(&bytes);
    }
    out
}

// Sixteen bytes by value; what the column lacks of them is 0.
pub fn sixteen(text: &[u8]) -> [u8; 16]
    ensures { result ≡ filled text.now (replicate 16 0) }
{
    padded(text)
}

// One digit's value; 0 for any other column.
// Kept (may not change): the clause's `figure` (specs/Hex) has 0 for any other column, and by it `packets` judges a line that lacks one.
#[tactic(auto, unfolding(crate::specs::Hex::digit))]
pub fn figure(text: &[u8]) -> u8
    ensures { result ≡ figure_of text.now }
{
    match text {
        [c] => digit(*c).unwrap_or(0),
        _ => 0,
    }
}

// Four bytes as a number, the highest first; what the column lacks of them is 0.
pub fn word(text: &[u8]) -> u32
    ensures { result ≡ get32 (filled text.now (replicate 4 0)) 0 }
{
    u32::from_be_bytes(padded(text))
}

// Bytes as they are printed, two digits to each.
#[derive(Drop)]
pub struct Hex<'a>(pub &'a [u8]);

impl fmt::Display for Hex<'_> {
    fn fmt<W: fmt::Write>(&self, f: &mut fmt::Formatter<W>) -> fmt::Result {
        for byte in self.0 {
            write!(f, "{byte:02x}")?;
        }
        Ok(())
    }
}
