// Single bytes, and whether two byte strings are the same.
// Assumes nothing: any strings, also of different lengths.
ghost use Rattle.std.specs.Prelude.{◌≡◌, get_or};
ghost use Rattle.wire.specs.Bytes.{same_bytes};

// The byte at i; 0 where there is none.
pub fn byte_at(s: &[u8], i: usize) -> u8
    ensures { result ≡ get_or s.now i 0 }
{
    s.get(i).copied().unwrap_or(0)
}

// Whether two strings have the same bytes; stops at the first difference.
#[tactic(auto, using(crate::proofs::BytesLaws::same_is))]
pub fn same(a: &[u8], b: &[u8]) -> bool
    ensures { result ≡ same_bytes a.now b.now }
{
    a == b
}

// The same answer, for MACs: every byte is looked at, so the time taken does not say where two strings of one length differ.
pub fn same_throughout(a: &[u8], b: &[u8]) -> bool
    ensures { result ≡ same_bytes a.now b.now }
{
    if a.len() != b.len() {
        return false;
    }
    let mut difference = 0;
    for (x, y) in a.iter().zip(b) {
        difference |= x ^ y;
    }
    difference == 0
}
