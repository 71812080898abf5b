// The bytes of segments and addresses, before any key is looked at: document 01, "The option in a segment", and the address prefixes of
// its "Key table". Any bytes of any length are an input: no public function has a `requires`, and a byte that is not there counts as 0.
#![tactic(auto)]

pub mod bytes;
pub mod header;
pub mod options;
pub mod prefix;
