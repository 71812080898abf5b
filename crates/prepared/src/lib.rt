// A prepared table: the entries of two valid tables in columns and records of fixed size, written once and searched at each call without
// being checked again. Document 02, Ticket 8. Any bytes may come as one; specs/Prepared.antt says what they mean.
#![tactic(auto)]

mod clean;
pub mod image;
mod mark;
pub mod stored;
