// The calls of TCP-AO (RFC 5925, RFC 5926), against the definitions of the crate `rules`: `operator::check_table`, `open::open_active`,
// `judge::judge_syn`, `judge::open_passive`, `judge::judge`, `sign::sign` and `operator::ask`.
#![tactic(auto)]

pub mod judge;
pub mod open;
pub mod operator;
pub mod sign;
pub mod sign_begun;
