// One partner's entry in units: its top key, what it sends, what it receives. Whether it is legal is judged by `rules`, and
// the steps change it by `changes`.
#![tactic(auto)]

ghost use Rattle.std.specs.Prelude.{◌≡◌};
ghost use Rattle.keying.specs.Keys.{listed};
ghost use Rattle.partner.specs.Entry as entry;

use keying::{DataKeys, Top};

// Counts end here.
pub const LIMIT: u32 = 99_999_999;

// Phase: no key message was sent.
pub const IDLE: u8 = 0;

// Phase: a key message waits for its answer.
pub const WAITING: u8 = 1;

// Phase: the key message was confirmed.
pub const CONFIRMED: u8 = 2;

// Phase: the key message failed or was given up.
pub const BROKEN: u8 = 3;

// Key form: one key.
pub const SINGLE: u8 = 1;

// Key form: two halves.
pub const PAIR: u8 = 2;

// A name or an identity, filled with blanks.
#[derive(Clone, Copy)]
pub struct Name {
    pub bytes: [u8; 16],
}

// That of an unused key place or an empty slot.
impl Default for Name {
    ghost is_default = { λ n. n ≡ entry.zero_name };

    fn default() -> Name {
        Name { bytes: [0; 16] }
    }
}

// A data key, with a name or 16 blanks.
#[derive(Clone, Copy, Default)]
pub struct DataKey {
    pub key: u64,
    pub name: Name,
}

// A key set: how many keys it has, and two places for them.
// The count stays a number: `names_formed` and `unused_zero` of specs/Legal judge a set of more than two, and the answer is 13.
#[derive(Clone, Copy, Default)]
pub struct KeySet {
    pub count: u8,
    pub first: DataKey,
    pub second: DataKey,
}

// A top key as it is kept: its name, its form, the key or the two halves of a pair.
// The form stays a number: `form_clean` of specs/Legal judges one that is no form, and the answer is 13.
#[derive(Clone, Copy, Default)]
pub struct TopKey {
    pub name: Name,
    pub form: u8,
    pub left: u64,
    pub right: u64,
}

// What we send: the next send count, the phase, the outgoing keys.
// The phase stays a number: `count_in_phase` of specs/Legal judges one that is no phase, and the answer is 13.
#[derive(Clone, Copy, Default)]
pub struct Sending {
    pub next: u32,
    pub phase: u8,
    pub outgoing: KeySet,
}

// What we receive: the expected count, the incoming keys.
#[derive(Clone, Copy, Default)]
pub struct Receiving {
    pub expected: u32,
    pub incoming: KeySet,
}

// An entry of the partner table; an empty slot is zero throughout.
#[derive(Clone, Copy, Default)]
pub struct Entry {
    pub identity: Name,
    pub top: TopKey,
    pub sending: Sending,
    pub receiving: Receiving,
}

// ---- names and keys; each drops something, as `From` never does: what is past 16 bytes, the names of the keys

// A text filled with blanks to 16 bytes.
pub fn name_of(w: &[u8]) -> Name
    ensures { result ≡ entry.name_of w.now }
{
    let mut bytes = [b' '; 16];
    octets::copy(&mut bytes, w);
    Name { bytes }
}

// The top key, single or pair.
#[tactic(auto, unfolding(crate::specs::Entry::top_of))]
pub fn top_of(k: TopKey) -> Top
    ensures { result ≡ entry.top_of k }
{
    if k.form == PAIR {
        Top::Pair(k.left, k.right)
    } else {
        Top::Single(k.left)
    }
}

// The data keys of a set.
#[tactic(auto, unfolding(crate::specs::Entry::keys_in, crate::specs::Entry::places))]
pub fn data_keys(set: KeySet) -> DataKeys
    ensures { listed result ≡ entry.keys_in set }
{
    match set.count {
        0 => DataKeys::None,
        1 => DataKeys::One(set.first.key),
        _ => DataKeys::Two(set.first.key, set.second.key),
    }
}

// ---- key sets and an empty slot; what is unused is zero

// A set of no keys.
pub fn no_keys() -> KeySet
    ensures { result ≡ entry.no_keys }
{
    KeySet::default()
}

// A set of one key.
pub fn one_key(k: DataKey) -> KeySet
    ensures { result ≡ entry.one_key k }
{
    KeySet {
        count: 1,
        first: k,
        ..no_keys()
    }
}

// A set of two keys.
pub fn two_keys(k: DataKey, l: DataKey) -> KeySet
    ensures { result ≡ entry.two_keys k l }
{
    KeySet {
        count: 2,
        first: k,
        second: l,
    }
}

// An empty slot.
#[tactic(auto, unfolding(crate::specs::Entry::empty))]
pub fn empty() -> Entry
    ensures { result ≡ entry.empty }
{
    Entry::default()
}
