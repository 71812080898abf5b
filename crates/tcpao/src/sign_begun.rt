// Signing in three steps: begin, data, end. Begin (sign.rt) gives every number, lays out the signed header with zeros for the MAC and the
// checksum, and leaves the MAC as its front left it and the checksum's sum as the pseudo-header left it; data go into both from where they
// lie, in as many pieces as they come; end puts the MAC into the header, and then the checksum. Between them a value holds all that is
// needed, and no reference.
ghost use Rattle.std.specs.Prelude.{◌≡◌, cond, ◌+◌, ◌*◌, ◌/◌, ◌≤◌, ◌<◌, length, get_or, replicate};
ghost use Rattle.rules.specs.Segment.{inserted, option_bytes, md5_option_bytes};
ghost use Rattle.rules.specs.Mac.{pseudo_header};
ghost use Rattle.rules.specs.Connection.{is_open_of, leaving, local_address, remote_address};
ghost use Rattle.checksum.specs.Running.{begun, added as added_to};
ghost use Rattle.traffic.specs.Padded.{padded};
ghost use Rattle.traffic.specs.Flow.{flow_of};
ghost use Rattle.traffic.specs.MacContext.{mac_view};
ghost use Rattle.tcpao.specs.SignedBytes.{ao_form, md5_form, head_bytes, blank_option, Room, Signable};
ghost use Rattle.tcpao.specs.SignBegin.{ao_front, md5_front, mac_place_of, Starts, Fed, checked_header, ended};

use checks::begun::mac_length;
use checks::segment::SizedSegment;
use checks::signing::Granted;
use checksum::Sum;
use keys::entry::{Pair, Secret};
use rules::{Connection, State};
use states::position::extension_of;
use states::writers::is_open;
use traffic::context::MacContext;
use traffic::flow::{Flow, leaving_hidden};

// Which option carries the MAC.
#[derive(Clone, Copy)]
pub enum Carrier {
    Ao,
    Md5,
}

// What every test let through: its position; the option that carries the MAC; how many bytes signing adds; the signed header with zeros for
// MAC and checksum, in an array that has room for the longest; the MAC after its front, to be cut to so many bytes; and the checksum's sum
// after the pseudo-header.
#[derive(Clone, Copy)]
pub struct SignBegun {
    pub position: u64,
    pub carrier: Carrier,
    pub added: usize,
    pub header: [u8; 60],
    pub mac: MacContext,
    pub mac_bytes: u8,
    pub sum: Sum,
}

// "For a bare SYN (SYN set, ACK clear) the destination ISN is zero", and while opening nothing else is signed.
fn destination_isn(conn: Connection) -> u32
    ensures { result ≡ cond (is_open_of conn) conn.peer_isn 0 }
{
    if is_open(conn) { conn.peer_isn } else { 0 }
}

// The flow of a segment that leaves: we are its source.
fn leaving_flow(conn: Connection) -> Flow
    ensures { flow_of result ≡ leaving conn }
{
    let pair = conn.pair;
    let source = pair.local;
    let destination = pair.remote;
    Flow {
        family: pair.family,
        source,
        destination,
        source_port: pair.local_port,
        destination_port: pair.remote_port,
        source_isn: conn.isn,
        destination_isn: destination_isn(conn),
    }
}

// The sum of the pseudo-header of a segment that leaves: "over the pseudo-header", with the state's own addresses.
fn leaving_sum(pair: Pair, len: usize) -> Sum
    ensures { result ≡ added_to begun (pseudo_header (local_address pair) (remote_address pair) len) }
{
    let w = keys::entry::width_of(pair.family);
    let source = pair.local;
    let destination = pair.remote;
    traffic::sums::pseudo_sum(&source[..w], &destination[..w], len)
}

// The header's first 20 bytes with so many words more, and the first four of an option.
fn head_of(header: &[u8], words: u8, kind: u8, len: u8, third: u8, fourth: u8) -> [u8; 24]
    requires { (20 ≤ length header.now) × (get_or header.now 12 0 + 16 * words < 256) }
    ensures { result ≡ head_bytes words kind len third fourth header.now }
{
    let mut head = [0u8; 24];
    head[..20].copy_from_slice(&header[..20]);
    head[12] += 16 * words;
    head[16..18].fill(0);
    head[20..].copy_from_slice(&[kind, len, third, fourth]);
    head
}

// The signed header with zeros behind the option's first four bytes and for the checksum: the option of `len` bytes stands behind byte 20,
// its padding and then the old options behind it.
fn blank_header(header: &[u8], added: usize, kind: u8, len: u8, third: u8, fourth: u8) -> [u8; 60]
    requires { Room header.now added len }
    ensures { result ≡ padded 60 (inserted (blank_option kind len third fourth added) header.now) }
{
    let words = (added / 4) as u8;
    let head = head_of(header, words, kind, len, third, fourth);
    let padding = [1u8; 3];
    let used = len as usize;
    let mut h = [0u8; 60];
    octets::copy_at(&mut h, 0, &head);
    octets::copy_at(&mut h, 20 + used, &padding[..added - used]);
    octets::copy_at(&mut h, 20 + added, &header[20..]);
    h
}

// Behind 37, by MD5, at its number, under the entry's secret.
// Kept (no plainer): beside ready, as the two options and the two MACs have other parts.
pub(crate) fn ready_md5(granted: Granted, state: State, segment: &SizedSegment<'_>) -> SignBegun
    requires { Signable segment.now md5_form × (granted.added ≡ md5_option_bytes) }
    ensures { Starts granted.position md5_form (md5_front granted.secret state segment.now) state segment.now result }
{
    let old = segment.header_bytes();
    let added = granted.added as usize;
    let header = blank_header(old, added, 19, 18, 0, 0);
    let whole = old.len() + added;
    let len = segment.len() + added;
    let flow = leaving_flow(state.conn);
    let mac = traffic::digest::begin(granted.secret, flow, len, &header[..whole]);
    SignBegun {
        position: granted.position,
        carrier: Carrier::Md5,
        added,
        header,
        mac,
        mac_bytes: 16,
        sum: leaving_sum(state.conn.pair, len),
    }
}

// Behind 37, at the position granted, under the outgoing key's secret. "KeyID is the outgoing SendID, RNextKeyID the asked RecvID."
pub(crate) fn ready(granted: Granted, state: State, segment: &SizedSegment<'_>) -> SignBegun
    requires { Signable segment.now (ao_form granted.secret state) × (granted.added ≡ option_bytes granted.secret.mac_bytes) }
    ensures { Starts granted.position (ao_form granted.secret state)
        (ao_front granted.position granted.secret state segment.now) state segment.now result }
{
    let secret = granted.secret;
    let old = segment.header_bytes();
    let added = granted.added as usize;
    let n = secret.mac_bytes;
    let header = blank_header(old, added, 29, 4 + n, state.send_id, state.ask_id);
    let whole = old.len() + added;
    let len = segment.len() + added;
    let mac = traffic::tag::begin(
        secret,
        leaving_hidden(secret),
        leaving_flow(state.conn),
        extension_of(granted.position),
        20,
        len,
        &header[..whole],
    );
    SignBegun {
        position: granted.position,
        carrier: Carrier::Ao,
        added,
        header,
        mac,
        mac_bytes: n,
        sum: leaving_sum(state.conn.pair, len),
    }
}

// The checksum put into a header, by the sum of all else: the header has a whole number of words, so it may be added behind data of any
// length, and the zeros behind it count nothing.
fn with_checksum(header: [u8; 60], sum: Sum) -> [u8; 60]
    ensures { result ≡ checked_header header sum }
{
    let checksum = octets::bytes16(sum.padded().add(&header).checksum());
    let mut h = header;
    octets::copy_at(&mut h, 16, &checksum);
    h
}

impl Carrier {
    // Where the MAC stands: behind the four bytes of TCP-AO, or the two of the MD5 option.
    fn mac_place(self) -> usize
        ensures { result ≡ mac_place_of self }
    {
        match self {
            Carrier::Ao => 24,
            Carrier::Md5 => 22,
        }
    }
}

impl SignBegun {
    // The next piece of the data.
    pub fn data(self, data: &[u8]) -> Self
        ensures { Fed self «data».now result }
    {
        SignBegun {
            mac: self.mac.update(data),
            sum: self.sum.add(data),
            ..self
        }
    }

    // The signed header, with its MAC and checksum.
    pub fn end(self) -> [u8; 60]
        ensures { result ≡ ended self (mac_view self.mac) self.sum }
    {
        let mut header = self.header;
        let n = mac_length(self.mac_bytes);
        let tag = self.mac.finish();
        octets::copy_at(&mut header, self.carrier.mac_place(), &tag[..n]);
        with_checksum(header, self.sum)
    }
}
