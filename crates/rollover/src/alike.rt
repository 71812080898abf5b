// What is the same after two runs. Assumes nothing.
ghost use Rattle.std.specs.Prelude.{◌≡◌};
ghost use Rattle.rollover.specs.Alike.{same, alike};

use rules::{SLOTS, State};

// The counts of drops, one after another.
fn same_drops(a: [u64; SLOTS], b: [u64; SLOTS]) -> bool
    ensures { result ≡ same a b }
{
    a == b
}

// Whether two states have the same counts, the same reference of the arriving direction and the same outgoing key.
#[tactic(auto, unfolding(crate::specs::Alike::alike))]
pub fn ended_alike(a: State, b: State) -> bool
    ensures { result ≡ alike a b }
{
    let counted = a.accepted == b.accepted && same_drops(a.drops, b.drops);
    counted && a.seen == b.seen && a.send_id == b.send_id
}
