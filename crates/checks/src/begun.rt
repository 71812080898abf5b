// Judging in three steps: begin, data, end. Begin (check.rt) makes every test but 29 and leaves the MAC as its front left it; data
// go into it from where they lie, in as many pieces as they come; end compares: 29. Between them a value holds all that is needed, and no
// reference.
ghost use Rattle.std.specs.Prelude.{◌≡◌, ◌≤◌, true, false, Some, drop};
ghost use Rattle.octets.specs.Tests.{first};
ghost use Rattle.wire.specs.Header.{sequence as sequence_of, header_end_of};
ghost use Rattle.keys.specs.Table.{found_of};
ghost use Rattle.rules.specs.Calls.{key_tests, md5_tests, good_by};
ghost use Rattle.traffic.specs.Flow.{flow_of};
ghost use Rattle.traffic.specs.MacContext.{mac_view, mac_absorb};
ghost use Rattle.checks.specs.GroupLaws.{is_final};
ghost use Rattle.checks.specs.Begin.{Begins, by_ao, by_md5_of, Fed, mac_length_of, agrees, ended};

use crate::faults::{refuse, refuse_where};
use crate::segment::SizedSegment;
use keys::entry::Ids;
use keys::table::Hit;
use rules::Outcome;
use states::position::extension_of;
use traffic::context::MacContext;
use traffic::flow::{Flow, arriving_hidden};
use wire::bytes::same_throughout;

// By which way a segment goes: by TCP-AO, with the IDs of the entry that was found for it, or by MD5, which has none.
// Kept (no plainer): an Option's shape alone: MD5 is a way of its own and no lack of IDs, which None would say.
#[derive(Clone, Copy)]
pub enum Way {
    Ao(Ids),
    Md5,
}

// What every test but 29 let through: its position and RNextKeyID, its way, the MAC after its front, and the MAC carried, of so many bytes.
// Kept (project rule): fixed memory, and no reference between the steps: a carried MAC has the array's first mac_bytes bytes.
#[derive(Clone, Copy)]
pub struct Begun {
    pub position: u64,
    pub rnext: u8,
    pub way: Way,
    pub mac: MacContext,
    pub carried: [u8; 16],
    pub mac_bytes: u8,
}

// 25 and 26, or what a bare SYN gets there; 27; 28. `found` is the entry for the segment's KeyID.
// Kept (no plainer): beside by_md5, as the two ways ask other things in another order, and begin other MACs.
#[tactic(auto, unfolding(keys::specs::Table::nobody))]
pub(crate) fn by_key(
    missing: Outcome,
    unknown: Outcome,
    found: Option<Hit>,
    flow: Flow,
    place: Option<u64>,
    segment: &SizedSegment<'_>,
) -> Result<Begun, Outcome>
    requires { ((found_of found).entry.secret.mac_bytes ≤ 16) × (is_final missing ≡ true) × (is_final unknown ≡ true) }
    ensures { Begins
        (first (key_tests missing unknown (found_of found) place segment.now) (good_by false place segment.now))
        (by_ao (found_of found).entry (flow_of flow) segment.now) result }
{
    let option = segment.ao();
    if option.count == 0 {
        return Err(missing);
    }
    let Some(hit) = found else {
        return Err(unknown);
    };
    let secret = hit.entry.secret;
    refuse_where(option.len != 4 + secret.mac_bytes as usize, 27)?;
    let position = place.ok_or(refuse(28))?;
    let mac = traffic::tag::begin(
        secret,
        arriving_hidden(secret),
        flow,
        extension_of(position),
        20 + option.at,
        segment.len(),
        segment.header_bytes(),
    );
    Ok(Begun {
        position,
        rnext: segment.rnext_key_id(),
        way: Way::Ao(hit.entry.ids),
        mac,
        carried: octets::padded(segment.mac()),
        mac_bytes: secret.mac_bytes,
    })
}

// Ticket 9, the MD5 way: 46, 47, 26, 27. `found` is the MD5 entry that matches the pair.
#[tactic(auto, unfolding(keys::specs::Table::nobody))]
pub(crate) fn by_md5(
    found: Option<Hit>,
    flow: Flow,
    segment: &SizedSegment<'_>,
) -> Result<Begun, Outcome>
    ensures { Begins (first (md5_tests (found_of found) segment.now) (good_by true (Some (sequence_of segment.now)) segment.now))
        (by_md5_of (found_of found).entry (flow_of flow) segment.now) result }
{
    refuse_where(0 < segment.ao().count, 46)?;
    let option = segment.md5();
    refuse_where(option.count == 0, 47)?;
    let Some(hit) = found else {
        return Err(refuse(26));
    };
    let secret = hit.entry.secret;
    refuse_where(option.len != 18, 27)?;
    Ok(Begun {
        position: segment.header().sequence as u64,
        rnext: 0,
        way: Way::Md5,
        mac: traffic::digest::begin(secret, flow, segment.len(), segment.header_bytes()),
        carried: octets::padded(segment.digest()),
        mac_bytes: 16,
    })
}

// How many bytes a MAC has: what its length says, but never more than there is room for.
pub fn mac_length(n: u8) -> usize
    ensures { result ≡ mac_length_of n }
{
    (n as usize).min(16)
}

impl Begun {
    // The next piece of the data.
    pub fn data(self, data: &[u8]) -> Self
        ensures { Fed self «data».now result }
    {
        Begun {
            mac: self.mac.update(data),
            ..self
        }
    }

    // 29: every byte is compared.
    pub fn end(self) -> Outcome
        ensures { result ≡ ended self (agrees self (mac_view self.mac)) }
    {
        let n = mac_length(self.mac_bytes);
        let tag = self.mac.finish();
        if same_throughout(&self.carried[..n], &tag[..n]) {
            Outcome::Good(self.position, self.rnext)
        } else {
            refuse(29)
        }
    }
}

// Data and end, of a segment that is there whole. Its data begin behind the header, or at the end of one that is shorter than it says.
pub fn finished(begun: Begun, segment: &[u8]) -> Outcome
    ensures { result
        ≡ ended begun (agrees begun (mac_absorb (mac_view begun.mac) (drop (header_end_of segment.now) segment.now))) }
{
    let start = wire::header::header_end(segment).min(segment.len());
    begun.data(&segment[start..]).end()
}
