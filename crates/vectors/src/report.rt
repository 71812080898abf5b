// What is printed of a line beside what `columns::report` has. Assumes nothing.
use columns::hex::Hex;
use std::io::Print;

// What was computed, and whether it is what the file expects. `pieces` says whether the message in
// pieces gave the same.
pub fn result(rt: &impl Print, got: &[u8], pieces: bool, want: &[u8]) -> bool {
    if !pieces {
        let _ = println!(rt; "{} DIFFERS from the message in pieces", Hex(got));
        return false;
    }
    columns::report::result(rt, got, want)
}
