// Which number a call gives, or the position by which it accepts or signs: document 01, "Numbers given back", against the definitions of
// the crate `rules`, specs/Calls. Nothing here writes a state or an output.
#![tactic(auto)]

pub mod begun;
pub mod check;
pub mod faults;
pub mod opening;
pub mod segment;
pub mod signing;
