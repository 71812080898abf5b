// A connection's state: who writes it, its counts, the position of a number against a reference, and its bytes (docs/BOUNDARY.md, "The
// state"), against the definitions of the crate `rules`, specs/Connection and specs/Position.
#![tactic(auto)]

pub mod buffer;
pub mod counts;
pub mod position;
pub mod state;
pub mod writers;
