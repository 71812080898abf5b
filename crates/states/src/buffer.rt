// A state in the bytes that are lent for it: docs/BOUNDARY.md, "The state". Writing assumes of the bytes that they have a state's length.
ghost use Rattle.std.specs.Prelude.{◌≡◌, length};
ghost use Rattle.states.specs.Layout.{is_state_of, state_bytes, encode_of};

use crate::state::{STATE_BYTES, encode};
use rules::State;

// Whether a buffer has a state's length.
pub fn is_state(bytes: &[u8]) -> bool
    ensures { result ≡ is_state_of bytes.now }
{
    bytes.len() == STATE_BYTES
}

// Writes a state into the bytes lent for it.
pub fn put(bytes: &mut [u8], q: State)
    requires { length bytes.old ≡ state_bytes }
    ensures { bytes.new ≡ encode_of q }
{
    bytes.copy_from_slice(&encode(q));
}
