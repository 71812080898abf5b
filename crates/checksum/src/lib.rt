// The Internet checksum, RFC 1071: the one's complement sum of octets that come in pieces, wherever they are cut.
// Assumes nothing: every value of a sum under way may come.
#![tactic(auto)]

ghost use Rattle.std.specs.Prelude.{◌≡◌, true, false, ◌+◌, ◌≤◌, ◌^◌, length};
ghost use Rattle.checksum.specs.Checksum.{complement};
ghost use Rattle.checksum.specs.Running.{word_sum, folded, Congruent, begun, added, padded as padded_of};

// A sum under way, with its carries brought back; and whether it ends inside a word, so that the next octet is a word's second.
#[derive(Clone, Copy, Default)]
pub struct Sum {
    pub sum: u16,
    pub odd: bool,
}

// A plain sum, with all its carries brought back.
#[tactic(auto, unfolding(crate::specs::Running::folded))]
fn fold(total: u64) -> u16
    ensures { result ≡ folded total }
{
    if total == 0 {
        return 0;
    }
    (1 + (total - 1) % 65535) as u16
}

// The same sum below 2^63, so that there is room for further additions.
fn with_room(total: u64) -> u64
    ensures { Congruent total (2 ^ 63) result }
{
    if total < 9223372036854775808 {
        return total;
    }
    fold(total) as u64
}

// The sum of at most four octets that begin a word, as two words side by side: zeros stand for those that are missing.
fn last_words(piece: &[u8]) -> u32
    requires { length piece.now ≤ 4 }
    ensures { folded result ≡ folded (word_sum false piece.now) }
{
    octets::load32(&octets::padded::<4>(piece), 0)
}

// The sum of a piece that begins a word, two words side by side at a step. Carries are brought back only when they need room.
fn words(piece: &[u8]) -> u64
    ensures { Congruent (word_sum false piece.now) (2 ^ 63 + 2 ^ 32) result }
{
    let pairs = piece.chunks_exact(4);
    let last = pairs.remainder();
    let mut total = 0;
    for pair in pairs {
        total = with_room(total) + octets::load32(pair, 0) as u64;
    }
    with_room(total) + last_words(last) as u64
}

// A sum, and a piece more that begins a word.
fn with_words(sum: u16, piece: &[u8]) -> u16
    ensures { result ≡ folded (sum + word_sum false piece.now) }
{
    fold(sum as u64 + words(piece))
}

// A sum, and a piece more that begins with a word's second octet.
fn with_half(sum: u16, piece: &[u8]) -> u16
    ensures { result ≡ folded (sum + word_sum true piece.now) }
{
    match piece {
        [] => sum,
        [half, rest @ ..] => fold(sum as u64 + *half as u64 + words(rest)),
    }
}

impl Sum {
    pub fn start() -> Self
        ensures { result ≡ begun }
    {
        Sum::default()
    }

    // One piece more, of any length.
    pub fn add(self, piece: &[u8]) -> Self
        ensures { result ≡ added self piece.now }
    {
        let sum = if self.odd {
            with_half(self.sum, piece)
        } else {
            with_words(self.sum, piece)
        };
        Sum {
            sum,
            odd: self.odd != (piece.len() % 2 == 1),
        }
    }

    // A last odd octet is followed by a zero: what comes next begins a word.
    pub fn padded(self) -> Self
        ensures { result ≡ padded_of self }
    {
        Sum { odd: false, ..self }
    }

    // The sum of all that was added.
    pub fn finish(self) -> u16
        ensures { result ≡ self.sum }
    {
        self.sum
    }

    // What the checksum's field gets, if it was zero in what was added.
    pub fn checksum(self) -> u16
        ensures { result ≡ complement self.sum }
    {
        !self.sum
    }
}
