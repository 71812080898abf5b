// An end of a connection with the one key that both ends hold, and the calls of `tcpao` as that end makes
// them. Every value is an end; where the family is not 4, addresses have sixteen bytes.
use arrayvec::ArrayVec;
use keys::algorithm::traffic_key_bytes;
use keys::entry::{Pair, Secret, width_of};
use rules::{Judged, LentArrival, SignedSegment, State, SynJudged};
use states::writers::empty;
use tables::{LentTables, Refusal};
use traffic::derive;
use traffic::flow::Flow;

// RFC 9235, section 3: the master key, the KeyIDs of the two directions, and the server's port, BGP's.
const KEY: [u8; 10] = *b"testvector";

const CLIENT_ID: u8 = 0x3d;

const SERVER_ID: u8 = 0x54;

pub const SERVER_PORT: u16 = 179;

// What signs where the table has no entry.
// Kept (may not change): a packet with no entry has always been shown with the key of these zeros.
const NO_SECRET: Secret = Secret {
    flags: 0,
    algorithm: 0,
    mac_bytes: 0,
    key_len: 0,
    key: [0; 80],
};

#[derive(Clone, Copy)]
pub struct End {
    pub pair: Pair,
    pub flags: u8,
    // Kept (no plainer): the table's own byte: a line may give any digit as the algorithm's number, for the calls to judge.
    pub algorithm: u8,
    pub send_id: u8,
    pub recv_id: u8,
}

impl End {
    // An end of this pair: the server's is the one with its port.
    // Kept (no plainer): the algorithm's number is the table's own byte, as a line gives it.
    pub fn new(pair: Pair, flags: u8, algorithm: u8) -> Self {
        let (send_id, recv_id) = if pair.local_port == SERVER_PORT {
            (SERVER_ID, CLIENT_ID)
        } else {
            (CLIENT_ID, SERVER_ID)
        };
        End {
            pair,
            flags,
            algorithm,
            send_id,
            recv_id,
        }
    }

    // The other end: "each matches the pair as its own end holds it, SendID and RecvID are exchanged".
    pub fn mirrored(self) -> Self {
        let local = self.pair.remote;
        let remote = self.pair.local;
        let pair = Pair {
            family: self.pair.family,
            local_port: self.pair.remote_port,
            remote_port: self.pair.local_port,
            local,
            remote,
        };
        End {
            pair,
            send_id: self.recv_id,
            recv_id: self.send_id,
            ..self
        }
    }

    pub fn is_server(&self) -> bool {
        self.pair.local_port == SERVER_PORT
    }

    #[tactic(auto, unfolding(keys::specs::Entry::width))]
    fn local(&self) -> &[u8] {
        &self.pair.local[..width_of(self.pair.family)]
    }

    #[tactic(auto, unfolding(keys::specs::Entry::width))]
    fn remote(&self) -> &[u8] {
        &self.pair.remote[..width_of(self.pair.family)]
    }

    // The entry's bytes before the addresses: document 01, "Key table (house bytes)".
    fn head(&self) -> [u8; 13] {
        let [l0, l1] = self.pair.local_port.to_be_bytes();
        let [r0, r1] = self.pair.remote_port.to_be_bytes();
        [
            self.pair.family,
            self.flags,
            self.algorithm,
            self.send_id,
            self.recv_id,
            l0,
            l1,
            l0,
            l1,
            r0,
            r1,
            r0,
            r1,
        ]
    }

    // The end's key table: one entry, for this pair alone. It has 128 bytes at most, so there is room for each part.
    #[tactic(auto, unfolding(keys::specs::Entry::width))]
    fn table(&self) -> ArrayVec<u8, 128> {
        let bits = (8 * width_of(self.pair.family)) as u8;
        let key_bytes = KEY.len() as u8;
        let mut entry = ArrayVec::new();
        for part in [
            self.head().as_slice(),
            self.local(),
            &[bits],
            self.remote(),
            &[bits, key_bytes],
            &KEY,
            &[0; 80 - KEY.len()],
        ] {
            let _ = entry.try_extend_from_slice(part);
        }
        entry
    }

    // A segment that arrives here, "'source' is whoever sent the segment", the remote side.
    fn arrival<'a>(&'a self, segment: &'a [u8]) -> LentArrival<'a> {
        LentArrival {
            source: self.remote(),
            destination: self.local(),
            segment,
        }
    }

    pub fn judge_syn(&self, segment: &[u8]) -> SynJudged {
        let table = self.table();
        let tables = LentTables::of_bytes(&table, &[]);
        tcpao::judge::judge_syn(&tables, &self.arrival(segment), true)
    }

    pub fn open_passive(&self, segment: &[u8], isn: u32) -> Judged {
        let table = self.table();
        let tables = LentTables::of_bytes(&table, &[]);
        tcpao::judge::open_passive(&tables, &self.arrival(segment), isn, true)
    }

    // The state of an opening that is refused is the empty one.
    pub fn open_active(&self, isn: u32) -> State {
        let table = self.table();
        let opened = tcpao::open::open_active(
            &LentTables::of_bytes(&table, &[]),
            self.local(),
            self.remote(),
            self.pair.local_port,
            self.pair.remote_port,
            isn,
            self.send_id,
        );
        opened.unwrap_or(empty())
    }

    pub fn judge(&self, segment: &[u8], state: State) -> Judged {
        let table = self.table();
        let tables = LentTables::of_bytes(&table, &[]);
        tcpao::judge::judge(&tables, &self.arrival(segment), state)
    }

    // Kept (may not change): the parameters are those of the public call `tcpao::sign::sign`, which are C's.
    pub fn sign(
        &self,
        segment: &[u8],
        out: &mut [u8],
        state: State,
    ) -> Result<SignedSegment, Refusal> {
        let table = self.table();
        let tables = LentTables::of_bytes(&table, &[]);
        tcpao::sign::sign(&tables, segment, out, state)
    }

    // The traffic key of a segment that arrives here, in its algorithm's length, from the entry that the table has for it.
    pub fn traffic_key(&self, source_isn: u32, destination_isn: u32) -> ArrayVec<u8, 32> {
        let table = self.table();
        let found = LentTables::of_bytes(&table, &[]).find_recv(self.pair, self.recv_id);
        let secret = match found {
            Some(hit) => hit.entry.secret,
            None => NO_SECRET,
        };
        let flow = Flow {
            family: self.pair.family,
            source: self.pair.remote,
            destination: self.pair.local,
            source_port: self.pair.remote_port,
            destination_port: self.pair.local_port,
            source_isn,
            destination_isn,
        };
        let mut key = ArrayVec::from(derive::traffic_key(secret, flow));
        key.truncate(traffic_key_bytes(self.algorithm));
        key
    }
}
