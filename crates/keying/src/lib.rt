// What keys and MACs are of: a top key, the data keys of a message, the blocks that go under a key. Parity, sealing, the MAC
// and an IV's value in code stand in `sealing`, the working key of a message in `notary`.
#![tactic(auto)]

// A top key: single, or a pair with left and right.
#[derive(Clone, Copy)]
pub enum Top {
    Single(u64),
    Pair(u64, u64),
}

// The data keys of a message or of an entry: at most two.
#[derive(Clone, Copy)]
pub enum DataKeys {
    None,
    One(u64),
    Two(u64, u64),
}

// One data key or two, in clear or under a working key.
#[derive(Clone, Copy)]
pub struct Blocks {
    pub first: u64,
    pub second: Option<u64>,
}
