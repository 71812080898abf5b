// The options of a TCP header: document 01, "The option in a segment".
// Assumes nothing: an option area of any bytes and any length. Kinds 19 (TCP MD5) and 29 (TCP-AO) are reported alike.
ghost use Rattle.std.specs.Prelude.{◌≡◌, ◌+◌, ◌^◌, ◌<◌, length};
ghost use Rattle.wire.specs.Header.{area as area_of};
ghost use Rattle.wire.specs.Options.{options_of};
ghost use Rattle.wire.specs.OptionSteps.{length_at_lem, step_at_lem, noted as noted_of};

use crate::header::header_end;

// How many options of a kind there are, where the first stands in the area, and how long it is; all 0 where there is none.
// Kept (may not change): theorems of `rules` read `.count`, `.at` and `.len` also where there is none, so this is no Option.
#[derive(Clone, Copy, Default)]
pub struct Occurrence {
    pub count: usize,
    pub at: usize,
    pub len: usize,
}

impl Occurrence {
    // One option more: only the first keeps its place.
    #[tactic(auto, unfolding(crate::specs::OptionSteps::noted))]
    fn note(&mut self, at: usize, len: usize)
        requires { self.old.count + 1 < 2 ^ 64 }
        ensures { self.new ≡ noted_of self.old at len }
    {
        if self.count == 0 {
            self.at = at;
            self.len = len;
        }
        self.count += 1;
    }
}

#[derive(Clone, Copy, Default)]
pub struct Seen {
    pub md5: Occurrence,
    pub ao: Occurrence,
}

// One option: its length, by kind.
#[derive(Clone, Copy)]
enum Step {
    End,
    Nop,
    Md5(usize),
    Ao(usize),
    Other(usize),
}

// The length of the option at a place, if its byte is there, says at least `least`, and does not run past the area.
// Kept (no plainer): at < length is a fact of two leaves, which the walk in `read` has from its own test.
#[tactic(auto, unfolding(crate::specs::OptionSteps::length_at_lem))]
fn length_at(area: &[u8], at: usize, least: usize) -> Option<usize>
    requires { at < length area.now }
    ensures { result ≡ length_at_lem area.now at least }
{
    let next = at + 1;
    let n = *area.get(next)? as usize;
    let behind = area.len() - next;
    if least <= n && n <= 1 + behind {
        Some(n)
    } else {
        None
    }
}

// The option at a place, if its length is right.
#[tactic(auto, unfolding(crate::specs::OptionSteps::step_at_lem))]
fn step_at(area: &[u8], at: usize) -> Option<Step>
    requires { at < length area.now }
    ensures { result ≡ step_at_lem area.now at }
{
    Some(match area[at] {
        0 => Step::End,
        1 => Step::Nop,
        19 => Step::Md5(length_at(area, at, 2)?),
        29 => Step::Ao(length_at(area, at, 4)?),
        2..=18 | 20..=28 | 30..=255 => Step::Other(length_at(area, at, 2)?),
    })
}

// Reads an option area. None: it is malformed.
pub fn read(area: &[u8]) -> Option<Seen>
    ensures { result ≡ options_of area.now }
{
    let mut seen = Seen::default();
    let mut at = 0;
    // Kept (no plainer): each turn goes on by the length of its option, which only that turn reads, so there is nothing to count.
    while at < area.len() {
        match step_at(area, at)? {
            Step::End => return Some(seen),
            Step::Nop => at += 1,
            Step::Md5(n) => {
                seen.md5.note(at, n);
                at += n;
            }
            Step::Ao(n) => {
                seen.ao.note(at, n);
                at += n;
            }
            Step::Other(n) => at += n,
        }
    }
    Some(seen)
}

// Reads the options of a segment: the part from byte 20 to the header's end, or to the segment's where that comes first.
pub fn of_segment(segment: &[u8]) -> Option<Seen>
    ensures { result ≡ options_of (area_of segment.now) }
{
    let end = header_end(segment).min(segment.len());
    if end < 20 {
        return Some(Seen::default());
    }
    read(&segment[20..end])
}
