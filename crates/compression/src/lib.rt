// The compression of one block of 64 bytes: SHA-1's and SHA-256's, both of FIPS 180-4, and MD5's, of RFC 1321. The crate mac makes
// hashes of messages of them. Reading a block asks that it has 64 bytes; nothing else is assumed.
#![tactic(auto)]

pub mod md5;
mod rounds;
pub mod sha1;
pub mod sha256;
pub mod words;
