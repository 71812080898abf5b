// A segment that came whole: behind 20, or 30 when signing. Its header is read once, here; who has one knows its size, and need not ask.
ghost use Rattle.std.specs.Prelude.{◌≡◌, ◌≤◌, ◌-◌, Ok, length, take};
ghost use Rattle.std.specs.Result.{result_and};
ghost use Rattle.octets.specs.Tests.{checked};
ghost use Rattle.wire.specs.Header.{header_end_of, header_of_lem};
ghost use Rattle.rules.specs.Segment.{ao as ao_of, md5 as md5_of, key_id_of, rnext_key_id as rnext_key_id_of, mac_in, digest_in};
ghost use Rattle.rules.specs.Calls.{length_tests};
ghost use Rattle.checks.specs.Sized.{Lies, Whole};

use crate::faults::refuse_where;
use rules::Outcome;
use std::marker::Model;
use wire::bytes::byte_at;
use wire::header::{Header, header_of, well_sized};
use wire::options::Occurrence;

// 20 to 65,535 bytes, with the header inside them. A contract sees the bytes.
#[derive(Drop)]
pub struct SizedSegment<'a> {
    bytes: &'a [u8],
    header: Header,
}

impl<'a> Model for SizedSegment<'a> {
    ghost use Rattle.std.specs.Prelude.{ℕ, List, ◌≡◌, ◌≤◌, true, length};
    ghost use Rattle.wire.specs.Header.{header_end_of, well_sized_of, header_of_lem};

    ghost Value = { List ℕ };

    ghost view = { λ s. s.bytes.now };

    ghost invariant = { λ s. (well_sized_of s.bytes.now ≡ true) × (header_end_of s.bytes.now ≤ 60)
        × (s.header ≡ header_of_lem (length s.bytes.now) s.bytes.now) };
}

impl<'a> SizedSegment<'a> {
    // "bad length or offset": the number is 20, or 30 when signing.
    pub(crate) fn read(bytes: &'a [u8], number: u8) -> Result<SizedSegment<'a>, Outcome>
        ensures { result ≡ result_and (checked (length_tests number bytes.now)) (Ok bytes.now) }
    {
        refuse_where(!well_sized(bytes), number)?;
        Ok(SizedSegment {
            bytes,
            header: header_of(bytes, bytes.len()),
        })
    }

    pub fn header(&self) -> Header
        ensures { result ≡ header_of_lem (length self.now) self.now }
    {
        self.header
    }

    pub fn len(&self) -> usize
        ensures { result ≡ length self.now }
    {
        self.bytes.len()
    }

    pub fn header_bytes(&self) -> &[u8]
        ensures bytes { result.now ≡ take (header_end_of self.now) self.now }
        ensures whole { Whole self.now }
    {
        &self.bytes[..self.header.end]
    }

    // The segment's TCP-AO, if it has one: it lies in the header.
    // Kept (no plainer): beside md5: each is one field of what the header's options give, under the option's name.
    pub(crate) fn ao(&self) -> Occurrence
        ensures option { result ≡ ao_of self.now }
        ensures place { Lies self.now result }
    {
        self.header.options.unwrap_or_default().ao
    }

    // The segment's MD5 option, likewise.
    pub(crate) fn md5(&self) -> Occurrence
        ensures option { result ≡ md5_of self.now }
        ensures place { Lies self.now result }
    {
        self.header.options.unwrap_or_default().md5
    }

    // "TCP-AO is kind 29, length, KeyID, RNextKeyID, MAC."
    // Kept (no plainer): beside rnext_key_id: one byte each, under the field's name.
    pub(crate) fn key_id(&self) -> u8
        ensures { result ≡ key_id_of self.now }
    {
        byte_at(self.bytes, 20 + self.ao().at + 2)
    }

    pub(crate) fn rnext_key_id(&self) -> u8
        ensures { result ≡ rnext_key_id_of self.now }
    {
        byte_at(self.bytes, 20 + self.ao().at + 3)
    }

    // The MAC of its TCP-AO.
    pub(crate) fn mac(&self) -> &[u8]
        requires { 4 ≤ (ao_of self.now).len }
        ensures bytes { result.now ≡ mac_in self.now }
        ensures size { length result.now ≡ (ao_of self.now).len - 4 }
    {
        let option = self.ao();
        let at = 20 + option.at;
        &self.bytes[at + 4..at + option.len]
    }

    // The digest of its MD5 option.
    pub(crate) fn digest(&self) -> &[u8]
        requires { (md5_of self.now).len ≡ 18 }
        ensures bytes { result.now ≡ digest_in self.now }
        ensures size { length result.now ≡ 16 }
    {
        let at = 20 + self.md5().at;
        &self.bytes[at + 2..at + 18]
    }
}
