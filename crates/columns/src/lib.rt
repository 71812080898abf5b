// What the programs that run published vectors share: their files are lines of columns, bytes stand in
// them in hexadecimal, and each line that is run prints what came out and whether it was expected.
#![tactic(auto)]

pub mod file;
pub mod hex;
pub mod lines;
pub mod report;
