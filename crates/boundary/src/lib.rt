// The calls on both tables and on a connection over lent bytes, with the answer as one number: docs/BOUNDARY.md, "The answer", "The
// calls" and "The state". The crate `embankery` exports them. No call asks anything of its caller: any bytes of any lengths may come.
#![tactic(auto)]

mod answer;
pub mod calls;
