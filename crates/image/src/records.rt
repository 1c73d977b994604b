// Records by the byte of the image where they stand: read, looked for, put back, added and taken out.
ghost use Rattle.std.specs.Prelude.{◌≡◌, ◌∷◌, ◌+◌, ◌*◌, ◌<◌, ◌≤◌, length, get_or};
ghost use Rattle.octets.specs.Number.{of_numbers};
ghost use Rattle.octets.specs.Wrote.{Wrote};
ghost use Rattle.partner.specs.Record.{entry_size, entry_bytes};
ghost use Rattle.image.specs.Image as images;
ghost use Rattle.image.specs.Places as places;
ghost use Rattle.image.specs.Results as results;

use crate::kinds;
use octets::Span;
use partner::Entry;

// The byte at a place, 0 past the end.
pub(crate) fn byte_at(image: &[u8], at: usize) -> u8
    ensures { result ≡ get_or image.now at 0 }
{
    image.get(at).copied().unwrap_or(0)
}

// The place behind the record at a place.
#[tactic(auto, using(crate::proofs::Steps::length_small))]
pub(crate) fn behind(image: &[u8], at: usize) -> usize
    requires { at ≤ images.largest }
    ensures value { result ≡ at + images.record_length (get_or image.now at 0) }
    ensures upper_bound { result ≤ at + images.partner_size }
{
    at + kinds::record_length(byte_at(image, at))
}

// The entry of the record at a place.
#[tactic(auto, unfolding(crate::specs::Places::entry_at, octets::specs::Part::part))]
pub(crate) fn entry_at(image: &[u8], at: usize) -> Entry
    requires { at ≤ images.largest }
    ensures { result ≡ places.entry_at at image.now }
{
    let body = Span {
        at: at + 1,
        length: record::SIZE,
    };
    record::entry_in(octets::part(image, body))
}

// ---- identities, compared as two numbers

// Of `count` records from a place on: the number of the partner's with the identity of the two numbers.
fn seek(image: &[u8], first: u64, second: u64, from: usize, count: usize) -> Option<usize>
    requires { from + images.partner_size * count ≤ images.largest }
    ensures { result ≡ places.below count (places.seek_slot count 0 from (of_numbers first second) image.now) }
{
    if image.len() < kinds::FRONT_SIZE {
        return None;
    }
    // a kind and an identity stand up to here; behind it nobody does
    let last = image.len() - kinds::FRONT_SIZE;
    let mut at = from;
    for slot in 0..count {
        if last < at {
            return None;
        }
        let here = image[at];
        if here == kinds::PARTNER {
            if octets::same_numbers(&image[at + 1..at + kinds::FRONT_SIZE], first, second) {
                return Some(slot);
            }
            // by `behind` the pass over a full table would take half as long again
            at += kinds::PARTNER_SIZE;
        } else {
            at += kinds::record_length(here);
        }
    }
    None
}

// The same by the identity's 16 bytes.
pub(crate) fn seek_named(image: &[u8], identity: &[u8], from: usize, count: usize) -> Option<usize>
    requires { (length identity.now ≡ 16) × (from + images.partner_size * count ≤ images.largest) }
    ensures { result ≡ places.below count (places.seek_slot count 0 from identity.now image.now) }
{
    let first = octets::number(&identity[..8]);
    let second = octets::number(&identity[8..]);
    seek(image, first, second, from, count)
}

// ---- an image with a record changed

// An entry put back at the place of its record.
pub(crate) fn put_at(image: &mut [u8], at: usize, e: Entry)
    ensures { image.new ≡ results.put_back at e image.old }
{
    if at < image.len() {
        record::put_entry(&mut image[at + 1..], e);
    }
}

// A partner's record, its kind and its body.
fn put_partner(rest: &mut [u8], e: Entry) -> usize
    ensures { Wrote (images.partner ∷ entry_bytes e) rest.old rest.new result }
{
    let a = octets::fill(rest, 1, kinds::PARTNER);
    a + record::put_whole(&mut rest[a..], e)
}

// The image with a partner in the empty slot at a place.
fn put_added(out: &mut [u8], image: &[u8], at: usize, e: Entry) -> usize
    requires { at < length image.now }
    ensures { Wrote (places.with_partner at e image.now) out.old out.new result }
{
    let a = octets::copy(out, &image[..at]);
    let b = a + put_partner(&mut out[a..], e);
    b + octets::copy(&mut out[b..], &image[at + 1..])
}

// The image with a partner added in the empty slot at a place, in `out`; and its length; nothing where there is no room for it.
pub(crate) fn load_at(image: &[u8], at: usize, e: Entry, out: &mut [u8]) -> Option<usize>
    ensures out_after { out.new ≡ results.delivered (results.added at e image.now) out.old }
    ensures value { result ≡ results.length_delivered (results.added at e image.now) out.old }
{
    if image.len() <= at || out.len() < image.len() + record::SIZE {
        return None;
    }
    Some(put_added(out, image, at, e))
}

// The image with an empty slot in place of a partner's record. Not one with `put_added`, from which it differs in what is
// put and in how much is left out: a flag for the two would be no plainer.
fn put_removed(out: &mut [u8], image: &[u8], at: usize) -> usize
    requires { at + images.partner_size ≤ length image.now }
    ensures { Wrote (places.without_partner at image.now) out.old out.new result }
{
    let a = octets::copy(out, &image[..at]);
    let b = a + octets::fill(&mut out[a..], 1, kinds::VACANT);
    b + octets::copy(&mut out[b..], &image[at + kinds::PARTNER_SIZE..])
}

// The image with a partner's record taken out, in `out`; and its length; nothing where there is no room for it.
pub(crate) fn remove_at(image: &[u8], at: usize, out: &mut [u8]) -> Option<usize>
    ensures out_after { out.new ≡ results.delivered (results.removed at image.now) out.old }
    ensures value { result ≡ results.length_delivered (results.removed at image.now) out.old }
{
    if image.len() < kinds::PARTNER_SIZE
        || image.len() - kinds::PARTNER_SIZE < at
        || out.len() < image.len() - record::SIZE
    {
        return None;
    }
    Some(put_removed(out, image, at))
}
