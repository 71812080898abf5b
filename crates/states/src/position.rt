// The position of a sequence number: document 01, "Positions". The wrapping difference of two 32-bit numbers decides it.
// Assumes nothing.
ghost use Rattle.std.specs.Prelude.{◌≡◌, ℕ};
ghost use Rattle.rules.specs.Answers.{place_answer, position_number};
ghost use Rattle.rules.specs.Position.{position};
ghost use Rattle.rules.specs.Connection.{place_on_lem, extension_of_lem};

use crate::writers::{is_md5, is_open};
use rules::Connection;

// "Subtraction of sequence numbers wraps at 2^32": below 2^31 the number lies so far ahead of the reference, above it behind; at exactly
// 2^31, and where X would be below 0 or not below 2^64, there is no position.
pub fn locate(reference: u64, s: u32) -> Option<u64>
    ensures place { result ≡ position reference s }
    ensures number { (n : ℕ) → place_answer n result ≡ position_number n reference s }
{
    let low = (reference % (1 << 32)) as u32;
    let difference = s.wrapping_sub(low) as u64;
    if difference < 1 << 31 {
        return reference.checked_add(difference);
    }
    if difference == 1 << 31 {
        return None;
    }
    reference.checked_sub((1 << 32) - difference)
}

// "A bare SYN and the SYN+ACK that opens have .. their own number as position; once open, every segment goes by its position." Document 02,
// Ticket 9: on an MD5 connection every segment has its own number.
pub fn place_on(conn: Connection, reference: u64, number: u32) -> Option<u64>
    ensures { result ≡ place_on_lem conn reference number }
{
    if is_open(conn) && !is_md5(conn) {
        return locate(reference, number);
    }
    Some(number as u64)
}

// "The extension is X divided by 2^32, rounded down."
pub fn extension_of(x: u64) -> u32
    ensures { result ≡ extension_of_lem x }
{
    (x >> 32) as u32
}
