// What is sent, numbered from 1 in the order of sending, and the order of events in both runs. Assumes nothing.

// The two ends.
#[derive(Clone, Copy, PartialEq, Eq)]
pub enum Side {
    Client,
    Server,
}

impl Side {
    pub fn other(self) -> Self {
        match self {
            Side::Client => Side::Server,
            Side::Server => Side::Client,
        }
    }
}

// What a numbered segment is: data that one end signs; or, made on the way from the segment numbered before it, the same once more, one
// that was damaged, or a forgery.
#[derive(Clone, Copy, PartialEq, Eq)]
pub enum Kind {
    Data,
    Again,
    Damaged,
    WrongMac,
    UnknownKey,
    FarAhead,
}

impl Kind {
    pub fn of(no: u8) -> Self {
        match no {
            3 => Kind::Damaged,
            6 | 12 => Kind::Again,
            8 => Kind::WrongMac,
            14 => Kind::UnknownKey,
            16 => Kind::FarAhead,
            _ => Kind::Data,
        }
    }

    // Which byte of the copy is changed, and which of its bits: one of the data, the MAC's first, the KeyID, the sequence number's first.
    pub fn change(self) -> Option<(usize, u8)> {
        match self {
            Kind::Data | Kind::Again => None,
            Kind::Damaged => Some((40, 1)),
            Kind::WrongMac => Some((24, 128)),
            Kind::UnknownKey => Some((22, 93)),
            Kind::FarAhead => Some((4, 112)),
        }
    }
}

// 7 to 12 come from the server, the others from the client.
pub fn sender(no: u8) -> Side {
    match no {
        7..=12 => Side::Server,
        _ => Side::Client,
    }
}

// Where the data of a segment begin, counted from the sender's ISN; 24 bytes in each.
// Kept (no plainer): every segment that is signed has a line here; one that is made from another is not asked for its place.
pub fn offset(no: u8) -> u32 {
    match no {
        1 | 7 => 1,
        2 | 9 => 25,
        4 | 10 => 49,
        5 | 11 => 73,
        13 => 97,
        15 => 121,
        _ => 0,
    }
}

// The segment of a number is sent, it arrives, or the server's operator asks for key 2.
#[derive(Clone, Copy)]
pub enum Event {
    Send(u8),
    Arrive(u8),
    Ask,
}

pub const FIRST_RUN: [Event; 33] = [
    Event::Send(1),
    Event::Send(2),
    Event::Send(3),
    Event::Send(4),
    Event::Send(5),
    Event::Send(6),
    Event::Arrive(1),
    Event::Arrive(5),
    Event::Arrive(3),
    Event::Arrive(2),
    Event::Arrive(6),
    Event::Arrive(4),
    Event::Send(7),
    Event::Send(8),
    Event::Send(9),
    Event::Ask,
    Event::Send(10),
    Event::Send(11),
    Event::Send(12),
    Event::Arrive(10),
    Event::Arrive(8),
    Event::Arrive(9),
    Event::Arrive(7),
    Event::Arrive(11),
    Event::Arrive(12),
    Event::Send(13),
    Event::Send(14),
    Event::Send(15),
    Event::Send(16),
    Event::Arrive(16),
    Event::Arrive(14),
    Event::Arrive(15),
    Event::Arrive(13),
];

// The same arrivals. Of those at the client, 7 to 12, the last true one again asks for key 2.
pub const SECOND_RUN: [u8; 16] = [15, 12, 6, 16, 9, 4, 8, 14, 5, 7, 2, 10, 13, 3, 11, 1];
