// The desk check of a recorded line: document 02, Ticket 1. A recording comes in pieces; the lines that it gives come one at a time. What
// a recording means is specs/Recording, a function of its bytes, wherever the pieces are cut; docs/RECORDING.md has its form.
// Assumes nothing: any bytes may be a recording, any value of the struct a desk, any buffer the room for its table.
#![tactic(auto)]

pub mod desk;
mod form;
pub mod line;
mod opening;
