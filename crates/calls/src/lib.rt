// What a host asks for when it has a key message built, as it hands it over: the request's 74 bytes, field by field; the room
// for a reply, the letters of an error, and why a call is refused.
#![tactic(auto)]

ghost use Rattle.std.specs.Prelude.{◌≡◌};
ghost use Rattle.calls.specs.Refusal as refusals;

pub mod letters;

// Less reply room is 6.
pub const ROOM: usize = 256;

// A request is kept in numbers, as they come: each is judged, and `malformed` of specs/Build answers 12 for one that is none.

// A data key of a request: the key, flags (bit 0: marked P, bit 1: IDK1 written, bit 2: IDK2 written), the name for IDK1.
#[derive(Clone, Copy)]
pub struct KeyRequest {
    pub key: u64,
    pub flags: u8,
    pub name: partner::Name,
}

// A date of 12 digits.
#[derive(Clone, Copy)]
pub struct Date {
    pub digits: [u8; 12],
}

// How many keys, two places for them, the IV's kind (0 none, 1 plain, 2 enciphered) and value, whether there is a date, and
// whether the keys are notarized.
#[derive(Clone, Copy)]
pub struct Request {
    pub count: u8,
    pub first: KeyRequest,
    pub second: KeyRequest,
    pub kind: u8,
    pub iv: u64,
    pub dated: u8,
    pub date: Date,
    pub notarized: u8,
}

// Why a call is refused. Of the paper's answers these are all but 0, which is done, and 4, an error found in a message.
#[derive(Clone, Copy, PartialEq, Eq)]
pub enum Refusal {
    // text not a message of this paper
    NoMessage = 1,
    // RCV is not us
    ForAnother = 2,
    // partner not in the table
    NoPartner = 3,
    // nothing is waiting
    NothingWaiting = 5,
    // reply room under 256
    NoRoom = 6,
    // a key message is already waiting
    AlreadyWaiting = 7,
    // the last count is used up
    CountUsedUp = 8,
    // 64 entries in use
    TableFull = 9,
    // identity malformed, our own, or taken
    BadIdentity = 10,
    // a key is not of odd parity
    EvenKey = 11,
    // a field of the call is malformed
    Malformed = 12,
    // our identity, the table or the entry is not legal
    Illegal = 13,
}

impl Refusal {
    // The paper's number of it.
    pub fn number(self) -> u32
        ensures { result ≡ refusals.number self }
    {
        self as u32
    }

    // The refusal of that number; none is that of 0, of 4 or of one past 13.
    pub fn numbered(answer: u32) -> Option<Refusal>
        ensures { result ≡ refusals.numbered answer }
    {
        match answer {
            1 => Some(Refusal::NoMessage),
            2 => Some(Refusal::ForAnother),
            3 => Some(Refusal::NoPartner),
            5 => Some(Refusal::NothingWaiting),
            6 => Some(Refusal::NoRoom),
            7 => Some(Refusal::AlreadyWaiting),
            8 => Some(Refusal::CountUsedUp),
            9 => Some(Refusal::TableFull),
            10 => Some(Refusal::BadIdentity),
            11 => Some(Refusal::EvenKey),
            12 => Some(Refusal::Malformed),
            13 => Some(Refusal::Illegal),
            _ => None,
        }
    }
}
