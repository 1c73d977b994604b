// An entry's record: the body of kind 2, read and written by its layout.
#![tactic(auto)]

ghost use Rattle.std.specs.Prelude.{◌≡◌, ◌++◌, ◌+◌, ◌<◌, ◌≤◌, ◌^◌, leb, length};
ghost use Rattle.std.specs.Bool.{then_some};
ghost use Rattle.octets.specs.Number.{bytes};
ghost use Rattle.octets.specs.Codec.{numeral, ◌followed_by◌, written, value_at, part_or_zeros};
ghost use Rattle.octets.specs.Wrote.{Wrote};
ghost use Rattle.partner.specs.Record as stored;

mod legal;

pub use legal::is_legal;
use partner::{DataKey, Entry, KeySet, Name, Receiving, Sending, TopKey};

// The record's length.
pub const SIZE: usize = 156;

// Where what follows the identity stands: the top key, the counts, the phase and the two key sets.
const TOP: usize = 16;

const NEXT: usize = 49;

const EXPECTED: usize = 53;

const PHASE: usize = 57;

const OUTGOING: usize = 58;

const INCOMING: usize = 107;

// ---- reading

// The K bytes from a place on, zero past the end.
fn bytes_in<const K: usize>(s: &[u8], at: usize) -> [u8; K]
    ensures { result ≡ part_or_zeros K at s.now }
{
    let rest = &s[at.min(s.len())..];
    if let Some(bytes) = rest.first_chunk() {
        return *bytes;
    }
    let mut bytes = [0; K];
    octets::copy(&mut bytes, rest);
    bytes
}

// The number of the K bytes from a place on.
fn number_in<const K: usize>(s: &[u8], at: usize) -> u64
    requires { K ≤ 8 }
    ensures value { result ≡ value_at (numeral K) at s.now }
    ensures upper_bound { result < 256 ^ K }
{
    octets::number(&bytes_in::<K>(s, at))
}

// A number of one byte.
fn byte_in(s: &[u8], at: usize) -> u8
    ensures { result ≡ value_at (numeral 1) at s.now }
{
    number_in::<1>(s, at) as u8
}

// A number of four bytes.
fn count_in(s: &[u8], at: usize) -> u32
    ensures { result ≡ value_at (numeral 4) at s.now }
{
    number_in::<4>(s, at) as u32
}

// A key or half a key, eight bytes.
fn key_in(s: &[u8], at: usize) -> u64
    ensures { result ≡ value_at (numeral 8) at s.now }
{
    number_in::<8>(s, at)
}

// A name.
fn name_in(s: &[u8], at: usize) -> Name
    ensures { result ≡ value_at stored.name_layout at s.now }
{
    Name {
        bytes: bytes_in(s, at),
    }
}

// A key place.
fn place_in(s: &[u8], at: usize) -> DataKey
    requires { at < 1000 }
    ensures { result ≡ value_at stored.place_layout at s.now }
{
    DataKey {
        key: key_in(s, at),
        name: name_in(s, at + 8),
    }
}

// A key set.
fn set_in(s: &[u8], at: usize) -> KeySet
    requires { at < 500 }
    ensures { result ≡ value_at stored.set_layout at s.now }
{
    KeySet {
        count: byte_in(s, at),
        first: place_in(s, at + 1),
        second: place_in(s, at + 1 + 24),
    }
}

// A top key.
fn top_in(s: &[u8], at: usize) -> TopKey
    requires { at < 1000 }
    ensures { result ≡ value_at stored.top_layout at s.now }
{
    TopKey {
        name: name_in(s, at),
        form: byte_in(s, at + 16),
        left: key_in(s, at + 16 + 1),
        right: key_in(s, at + 16 + 1 + 8),
    }
}

// The entry that a record is. Not inlined: the bytes of its fields would stay in the frame of whoever goes on with the entry.
#[tactic(auto, unfolding(partner::specs::Record::entry_in))]
#[inline(never)]
pub fn entry_in(s: &[u8]) -> Entry
    ensures { result ≡ stored.entry_in s.now }
{
    Entry {
        identity: name_in(s, 0),
        top: top_in(s, TOP),
        sending: Sending {
            next: count_in(s, NEXT),
            phase: byte_in(s, PHASE),
            outgoing: set_in(s, OUTGOING),
        },
        receiving: Receiving {
            expected: count_in(s, EXPECTED),
            incoming: set_in(s, INCOMING),
        },
    }
}

// ---- writing: each writer is lent the rest and tells how much it put; no function makes more than three such loans

// Identity and key name.
fn put_names(rest: &mut [u8], identity: Name, name: Name) -> usize
    ensures { Wrote (identity.bytes ++ name.bytes) rest.old rest.new result }
{
    let a = octets::copy(rest, &identity.bytes);
    a + octets::copy(&mut rest[a..], &name.bytes)
}

// Key form and top key.
fn put_top(rest: &mut [u8], k: TopKey) -> usize
    ensures { Wrote (bytes 1 k.form ++ (bytes 8 k.left ++ bytes 8 k.right)) rest.old rest.new result }
{
    let a = octets::put_number(rest, 1, k.form as u64);
    let b = a + octets::put_number(&mut rest[a..], 8, k.left);
    b + octets::put_number(&mut rest[b..], 8, k.right)
}

// Identity, key name, key form and top key.
fn put_front(rest: &mut [u8], e: Entry) -> usize
    ensures { Wrote (written (stored.name_layout followed_by stored.top_layout) (e.identity, e.top)) rest.old rest.new result }
{
    let a = put_names(rest, e.identity, e.top.name);
    a + put_top(&mut rest[a..], e.top)
}

// Next send, expected and phase.
fn put_counts(rest: &mut [u8], e: Entry) -> usize
    ensures { Wrote (written stored.counts_layout (e.sending.next, (e.receiving.expected, e.sending.phase)))
        rest.old rest.new result }
{
    let a = octets::put_number(rest, 4, e.sending.next as u64);
    let b = a + octets::put_number(&mut rest[a..], 4, e.receiving.expected as u64);
    b + octets::put_number(&mut rest[b..], 1, e.sending.phase as u64)
}

// A key place.
fn put_place(rest: &mut [u8], k: DataKey) -> usize
    ensures { Wrote (written stored.place_layout k) rest.old rest.new result }
{
    let a = octets::put_number(rest, 8, k.key);
    a + octets::copy(&mut rest[a..], &k.name.bytes)
}

// A key set.
fn put_set(rest: &mut [u8], set: KeySet) -> usize
    ensures { Wrote (written stored.set_layout set) rest.old rest.new result }
{
    let a = octets::put_number(rest, 1, set.count as u64);
    let b = a + put_place(&mut rest[a..], set.first);
    b + put_place(&mut rest[b..], set.second)
}

// Outgoing and incoming keys.
fn put_sets(rest: &mut [u8], outgoing: KeySet, incoming: KeySet) -> usize
    ensures { Wrote (written (stored.set_layout followed_by stored.set_layout) (outgoing, incoming)) rest.old rest.new result }
{
    let a = put_set(rest, outgoing);
    a + put_set(&mut rest[a..], incoming)
}

// The whole record: as many of its bytes as there is room for, over the front of rest; how many that is.
pub fn put_whole(rest: &mut [u8], e: Entry) -> usize
    ensures { Wrote (stored.entry_bytes e) rest.old rest.new result }
{
    let a = put_front(rest, e);
    let b = a + put_counts(&mut rest[a..], e);
    b + put_sets(&mut rest[b..], e.sending.outgoing, e.receiving.incoming)
}

// The entry's record over the front of rest, and its length; nothing where there is no room for it.
pub fn put_entry(rest: &mut [u8], e: Entry) -> Option<usize>
    ensures rest_after { rest.new ≡ (stored.put_entry e rest.old).0 }
    ensures value { result ≡ then_some (leb stored.entry_size (length rest.old)) stored.entry_size }
{
    if rest.len() < SIZE {
        return None;
    }
    Some(put_whole(rest, e))
}
