// What C and Rust link, by the names of include/embankery.h: each call is one of the crates `boundary` and `digests`, under C's name.
// A slice passes as a pointer and then a length. No call asks anything of its caller beforehand: any bytes of any lengths may come.
#![tactic(auto)]

mod calls;
mod macs;
