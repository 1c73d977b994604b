// The stored image: whether it is legal, the number of a partner's slot or of an empty one, the entry of a slot, and an
// image with a slot changed, filled or emptied.
#![tactic(auto)]

ghost use Rattle.std.specs.Prelude.{◌≡◌, ◌+◌, ◌*◌, ◌≤◌, length, take, drop, get_or, Some};
ghost use Rattle.octets.specs.Part.{found};
ghost use Rattle.octets.specs.Wrote.{Wrote};
ghost use Rattle.partner.specs.Entry.{empty};
ghost use Rattle.partner.specs.Table as tables;
ghost use Rattle.image.specs.Image as images;
ghost use Rattle.image.specs.Places as places;
ghost use Rattle.image.specs.Pass as pass;
ghost use Rattle.image.specs.Results as results;

use octets::Span;
use partner::{Entry, Name};

mod kinds;
mod records;

pub use kinds::{FRONT_SIZE, PARTNER_SIZE};

// How many records follow the front.
const SLOTS: usize = 64;

// The image of so many empty slots, and of so many partners.
const SMALLEST: usize = FRONT_SIZE + SLOTS;

pub const LARGEST: usize = FRONT_SIZE + SLOTS * PARTNER_SIZE;

// Our own identity, filled with blanks.
#[tactic(auto, unfolding(octets::specs::Part::part))]
pub fn own_identity(image: &[u8]) -> &[u8]
    ensures { result.now ≡ places.own_in image.now }
{
    octets::part(image, Span { at: 1, length: 16 })
}

// ---- slots

// The number of a partner's slot by its identity, filled with blanks.
#[tactic(auto, unfolding(crate::specs::Places::slot_of))]
pub fn slot_of(image: &[u8], identity: &[u8; 16]) -> Option<usize>
    ensures { result ≡ places.below 64 (places.slot_of identity.now image.now) }
{
    records::seek_named(image, identity, FRONT_SIZE, SLOTS)
}

// The number of the lowest empty slot.
pub fn free_slot(image: &[u8]) -> Option<usize>
    ensures { result ≡ places.below 64 (places.free_slot image.now) }
{
    let mut at = FRONT_SIZE;
    for slot in 0..SLOTS {
        if records::byte_at(image, at) == kinds::VACANT {
            return Some(slot);
        }
        at = records::behind(image, at);
    }
    None
}

// Where the record of a slot stands.
fn slot_place(image: &[u8], slot: usize) -> usize
    requires { slot ≤ 64 }
    ensures value { result ≡ places.slot_place slot image.now }
    ensures upper_bound { result ≤ images.largest }
{
    let mut at = FRONT_SIZE;
    for _ in 0..slot {
        at = records::behind(image, at);
    }
    at
}

// The entry of a slot, taken at the image's word; past the 64th an empty one.
pub fn slot(image: &[u8], slot: usize) -> Entry
    ensures { result ≡ get_or (images.slots_in 64 (drop images.front_size image.now)) slot empty }
{
    if slot < SLOTS {
        let at = slot_place(image, slot);
        if records::byte_at(image, at) == kinds::PARTNER {
            return records::entry_at(image, at);
        }
    }
    partner::empty()
}

// ---- legal

// Whether none of `count` records from a place on has the identity at another place.
fn is_apart(image: &[u8], identity: usize, from: usize, count: usize) -> bool
    requires { (identity + 16 ≤ length image.now) × (from + images.partner_size * count ≤ images.largest) }
    ensures { result ≡ pass.apart_from count from (take 16 (drop identity image.now)) image.now }
{
    records::seek_named(image, &image[identity..identity + 16], from, count).is_none()
}

// Whether the front is: kind 1, and our identity, filled, which no partner has.
fn front_legal(image: &[u8]) -> bool
    ensures { result ≡ pass.front_legal image.now }
{
    records::byte_at(image, 0) == kinds::OURS
        && rules::is_filled(own_identity(image))
        && is_apart(image, 1, FRONT_SIZE, SLOTS)
}

// Whether the record at a place is, with `left` behind it: an empty slot, or a legal entry with an identity of its own.
fn record_legal(image: &[u8], at: usize, left: usize) -> bool
    requires { at + images.partner_size + images.partner_size * left ≤ images.largest }
    ensures { result ≡ pass.record_legal left at image.now }
{
    let kind = records::byte_at(image, at);
    if kind == kinds::VACANT {
        return at < image.len();
    }
    if kind != kinds::PARTNER {
        return false;
    }
    let behind = at + PARTNER_SIZE;
    if image.len() < behind {
        return false;
    }
    let body = Span {
        at: at + 1,
        length: record::SIZE,
    };
    record::is_legal(octets::part(image, body)) & is_apart(image, at + 1, behind, left)
}

// Whether the image is that of a legal table.
pub fn legal(image: &[u8]) -> bool
    ensures { result ≡ found (images.decode image.now) }
{
    if !front_legal(image) {
        return false;
    }
    let mut at = FRONT_SIZE;
    for left in (0..SLOTS).rev() {
        if !record_legal(image, at, left) {
            return false;
        }
        at = records::behind(image, at);
    }
    at == image.len()
}

// ---- images with a slot changed

// An entry put back in its slot; nothing past the 64th.
#[tactic(auto, unfolding(crate::specs::Results::put_slot))]
pub fn put_slot(image: &mut [u8], slot: usize, e: Entry)
    ensures { image.new ≡ results.put_slot slot e image.old }
{
    if slot < SLOTS {
        let at = slot_place(image, slot);
        records::put_at(image, at, e);
    }
}

// The image with a partner added in an empty slot, in `out`, and its length; nothing past the 64th or where there is no room.
#[tactic(auto, unfolding(crate::specs::Results::added_slot, crate::specs::Results::delivered, crate::specs::Results::length_delivered))]
pub fn load_slot(image: &[u8], slot: usize, e: Entry, out: &mut [u8]) -> Option<usize>
    ensures out_after { out.new ≡ results.delivered (results.added_slot slot e image.now) out.old }
    ensures value { result ≡ results.length_delivered (results.added_slot slot e image.now) out.old }
{
    if SLOTS <= slot {
        return None;
    }
    records::load_at(image, slot_place(image, slot), e, out)
}

// The image with a partner's slot emptied, in `out`, and its length; nothing past the 64th or where there is no room.
#[tactic(auto, unfolding(crate::specs::Results::removed_slot, crate::specs::Results::delivered, crate::specs::Results::length_delivered))]
pub fn remove_slot(image: &[u8], slot: usize, out: &mut [u8]) -> Option<usize>
    ensures out_after { out.new ≡ results.delivered (results.removed_slot slot image.now) out.old }
    ensures value { result ≡ results.length_delivered (results.removed_slot slot image.now) out.old }
{
    if SLOTS <= slot {
        return None;
    }
    records::remove_at(image, slot_place(image, slot), out)
}

// Our identity and 64 empty slots.
fn put_started(out: &mut [u8], own: Name) -> usize
    ensures { Wrote (images.encode (tables.started own)) out.old out.new result }
{
    let a = octets::fill(out, 1, kinds::OURS);
    let b = a + octets::copy(&mut out[a..], &own.bytes);
    b + octets::fill(&mut out[b..], SLOTS, kinds::VACANT)
}

// The image of a table with our identity and 64 empty slots, in `out`, and its length; nothing where there is no room for it.
pub fn start(own: Name, out: &mut [u8]) -> Option<usize>
    ensures out_after { out.new ≡ results.delivered (Some (images.encode (tables.started own))) out.old }
    ensures value { result ≡ results.length_delivered (Some (images.encode (tables.started own))) out.old }
{
    if out.len() < SMALLEST {
        return None;
    }
    Some(put_started(out, own))
}
