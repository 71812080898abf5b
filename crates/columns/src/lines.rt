// A text in lines, and a line in columns with one space between: what the vector files are made of. Assumes nothing.
// A text is bytes and no `&str`: a line that cannot be read is printed as it stands, whatever is in it.
ghost use Rattle.std.specs.Prelude.{◌≡◌, ◌+◌, ◌≤◌, ℕ, suc, List, [], length, take, drop, ◌==◌, MatchOption};
ghost use Rattle.columns.specs.Lines.{before, line_at, column as column_of, is_remark_of};
ghost use Rattle.std.specs.Iterator.{at_most};

use std::marker::Model;

// The lines of a text, of which a contract sees what is left. One that ends the text without '\n' is a line too.
#[derive(Drop)]
pub struct Lines<'a> {
    rest: &'a [u8],
}

impl<'a> Model for Lines<'a> {
    ghost Value = { List ℕ };

    ghost view = { λ l. l.rest.now };
}

impl<'a> Lines<'a> {
    pub fn new(text: &'a [u8]) -> Self
        ensures { result ≡ text.now }
    {
        Lines { rest: text }
    }
}

impl<'a> Iterator for Lines<'a> {
    type Item = &'a [u8];

    ghost remaining = { λ l. at_most (length l) };

    // The next line is the one at the front of what is left, and then what is behind it is left.
    ghost next_gives = { λ l line after. MatchOption line (l ≡ []) (λ x. (x.now ≡ line_at 0 l) × (after ≡ drop (suc (before 10 l)) l)) };

    #[tactic(auto, unfolding(crate::specs::Lines::line_at))]
    fn next(&mut self) -> Option<&'a [u8]> {
        if self.rest.is_empty() {
            return None;
        }
        let (line, rest) = cut(self.rest, b'\n');
        self.rest = rest;
        Some(line)
    }
}

// The index of the first b from `at` on, or the length where there is none.
// Kept (may not change): the clause gives the length where there is none, since `before` counts every byte then.
pub fn find(s: &[u8], at: usize, b: u8) -> usize
    requires { at ≤ length s.now }
    ensures value { result ≡ at + before b (drop at s.now) }
    ensures lower_bound { (at ≤ result) × (result ≤ length s.now) }
{
    match s[at..].iter().position(|x| *x == b) {
        Some(i) => at + i,
        None => s.len(),
    }
}

// What stands before the first b, and what stands behind it; the whole and nothing where there is none.
fn cut(s: &[u8], b: u8) -> (&[u8], &[u8])
    ensures front { result.0.now ≡ take (before b s.now) s.now }
    ensures rest { result.1.now ≡ drop (suc (before b s.now)) s.now }
{
    let end = find(s, 0, b);
    (&s[..end], s.get(end + 1..).unwrap_or_default())
}

// Column k of a line, counted from 0; empty where the line has fewer.
pub fn column(line: &[u8], k: usize) -> &[u8]
    ensures { result.now ≡ column_of k line.now }
{
    let mut rest = line;
    for _ in 0..k {
        rest = cut(rest, b' ').1;
    }
    cut(rest, b' ').0
}

// Whether a line has no column k, and so none behind it.
pub fn ends(line: &[u8], k: usize) -> bool
    ensures { result ≡ (length (column_of k line.now) == 0) }
{
    column(line, k).is_empty()
}

// A line that only speaks to the reader.
pub fn is_remark(line: &[u8]) -> bool
    ensures { result ≡ is_remark_of line.now }
{
    line.starts_with(b"#")
}
