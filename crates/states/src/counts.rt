// The counts of a connection: document 01, "Numbers given back".
// Assumes nothing.
ghost use Rattle.std.specs.Prelude.{◌≡◌};
ghost use Rattle.rules.specs.Connection.{slot as slot_of, count_drop_of};

use rules::SLOTS;

// "drops 20 to 29 on an open connection add one to that number's count": the place of a number's count, if it has one. Behind 29 stand 40
// (document 02, Ticket 5), 46 and 47 (Ticket 9).
fn slot(n: u8) -> Option<usize>
    ensures { result ≡ slot_of n }
{
    match n {
        20..=29 => Some((n - 20) as usize),
        40 => Some(10),
        46 => Some(11),
        47 => Some(12),
        _ => None,
    }
}

// "Counts of acceptances and of each drop stop at 2^64-1."
pub fn count_drop(n: u8, mut drops: [u64; SLOTS]) -> [u64; SLOTS]
    ensures { result ≡ count_drop_of n drops }
{
    if let Some(i) = slot(n) {
        drops[i] = drops[i].saturating_add(1);
    }
    drops
}
