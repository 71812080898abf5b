// The two key tables, in document 01's bytes ("Key table (house bytes)"): two entries at each end, each the mirror of one at the other end.
// They match this connection's two addresses and ports and no others. Assumes nothing.
use crate::script::Side;

// A key: its algorithm, its bytes, and the KeyIDs with which the two ends sign. The client's SendID of a key is the server's RecvID, and
// the other way round.
#[derive(Clone, Copy)]
pub struct Key {
    // Kept (no plainer): the table's own byte, which is all that is made of it.
    algorithm: u8,
    bytes: [u8; 20],
    pub client_id: u8,
    pub server_id: u8,
}

pub const FIRST: Key = Key {
    algorithm: 1,
    bytes: *b"the first master key",
    client_id: 61,
    server_id: 84,
};

pub const OTHER: Key = Key {
    algorithm: 2,
    bytes: *b"the other master key",
    client_id: 62,
    server_id: 85,
};

impl Side {
    pub fn address(self) -> [u8; 4] {
        match self {
            Side::Client => [10, 4, 0, 17],
            Side::Server => [10, 4, 0, 1],
        }
    }

    pub fn port(self) -> u16 {
        match self {
            Side::Client => 40017,
            Side::Server => 4470,
        }
    }
}

impl Key {
    pub fn id(&self, side: Side) -> u8 {
        match side {
            Side::Client => self.client_id,
            Side::Server => self.server_id,
        }
    }

    // An entry is kind 4, flags 1 (all options covered), algorithm, SendID, RecvID; local port low and high, remote port low and high;
    // local address and prefix, remote address and prefix; key length, and the key padded with zeros to 80 bytes.
    fn entry(&self, side: Side) -> [u8; 104] {
        let [l0, l1] = side.port().to_be_bytes();
        let [r0, r1] = side.other().port().to_be_bytes();
        let mut entry = [0; 104];
        entry[..5].copy_from_slice(&[4, 1, self.algorithm, self.id(side), self.id(side.other())]);
        entry[5..13].copy_from_slice(&[l0, l1, l0, l1, r0, r1, r0, r1]);
        entry[13..17].copy_from_slice(&side.address());
        entry[17] = 32;
        entry[18..22].copy_from_slice(&side.other().address());
        entry[22] = 32;
        entry[23] = 20;
        entry[24..44].copy_from_slice(&self.bytes);
        entry
    }
}

pub fn table(side: Side) -> [u8; 208] {
    let mut table = [0; 208];
    table[..104].copy_from_slice(&FIRST.entry(side));
    table[104..].copy_from_slice(&OTHER.entry(side));
    table
}

// The name of the key that a KeyID or RNextKeyID names.
pub fn name(id: u8) -> &'static str {
    if id == FIRST.client_id || id == FIRST.server_id {
        "key 1"
    } else if id == OTHER.client_id || id == OTHER.server_id {
        "key 2"
    } else {
        "none"
    }
}
