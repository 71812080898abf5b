// What SHA-1, SHA-256 and MD5 have in common in a block: rounds on N working variables, sixteen at a time, and of the two SHAs (FIPS 180-4
// §6.1.3) a schedule of which sixteen words are kept.
ghost use Rattle.std.specs.Prelude.{◌≡◌, ℕ, ◌+◌, ◌<◌, ◌≤◌, List, length, slice_index};
ghost use Rattle.compression.specs.Words.{sums};
ghost use Rattle.compression.specs.Schedule.{extended, following, ring, rounds_in};

// The rounds of a hash: round t takes one of the sixteen words that are there, in place `place t`.
pub(crate) trait Rounds<const N: usize> {
    ghost count: { ℕ };

    ghost place: { ℕ → ℕ };

    ghost step: { ℕ → ℕ → List ℕ → List ℕ };

    fn round(t: usize, w: &[u32; 16], s: [u32; N]) -> [u32; N]
        requires { t < count }
        ensures { result ≡ step t (slice_index w.now (place t)) s.entry };
}

// The schedule of a hash. Of sixteen words, of which those before place i are already the ones that follow, `next` makes the i-th that
// follows.
pub(crate) trait Schedule {
    ghost next_word: { List ℕ → ℕ → ℕ };

    fn next(w: &[u32; 16], i: usize) -> u32
        requires { i < 16 }
        ensures { (W : List ℕ) → length W ≡ 16 → w.now ≡ ring next_word i W → result ≡ next_word (extended next_word i W) (16 + i) };
}

// Four rounds to a loop, which the compiler unrolls, so that t is a constant in each round.
#[inline(always)]
fn four_rounds<const N: usize, H: Rounds<N>>(from: [u32; N], w: &[u32; 16], at: usize) -> [u32; N]
    requires { (at + 4 ≤ H.count) × (H.count ≤ 80) }
    ensures { result ≡ rounds_in H.step H.place at 4 w.now from.entry }
{
    let mut s = from;
    // Kept (no plainer): t is the round's number, which the round itself takes; no array is gone over.
    for t in at..at + 4 {
        s = H::round(t, w, s);
    }
    s
}

#[inline(always)]
pub(crate) fn sixteen_rounds<const N: usize, H: Rounds<N>>(
    s: [u32; N],
    w: &[u32; 16],
    at: usize,
) -> [u32; N]
    requires { (at + 16 ≤ H.count) × (H.count ≤ 80) }
    ensures { result ≡ rounds_in H.step H.place at 16 w.now s.entry }
{
    let s = four_rounds::<N, H>(s, w, at);
    let s = four_rounds::<N, H>(s, w, at + 4);
    let s = four_rounds::<N, H>(s, w, at + 8);
    four_rounds::<N, H>(s, w, at + 12)
}

// Eight words of the schedule from place i on, each in the place of the one sixteen before it. This stands apart from the rounds, so that
// no round has an index modulo 16: the compiler unrolls the loop, and every place is a constant. Sixteen to a loop it does not unroll for
// SHA-256.
#[inline(always)]
fn eight_words<H: Schedule>(w: &mut [u32; 16], from: usize)
    requires { from + 8 ≤ 16 }
    ensures { (W : List ℕ) → length W ≡ 16 → w.old ≡ ring H.next_word from W → w.new ≡ ring H.next_word (from + 8) W }
{
    // Kept (no plainer): a word is made of four places of the ring that is written, so no iterator can lend it.
    for i in from..from + 8 {
        w[i] = H::next(w, i);
    }
}

// Sixteen words of the schedule become the sixteen that follow them.
#[inline(always)]
pub(crate) fn next_words<H: Schedule>(w: &mut [u32; 16])
    ensures { w.new ≡ following H.next_word w.old }
{
    eight_words::<H>(w, 0);
    eight_words::<H>(w, 8);
}

// The sums at the end of a block: each variable and what it was before the rounds.
#[inline(always)]
pub(crate) fn sum<const N: usize>(h: [u32; N], s: [u32; N]) -> [u32; N]
    ensures { result ≡ sums N h.entry s.entry }
{
    // Kept (proof): `array::from_fn` was tried: nothing is known of what a generic function's closure gives.
    let mut out = h;
    for i in 0..N {
        out[i] = out[i].wrapping_add(s[i]);
    }
    out
}
