// What start and image reading answer, and a row's image laid in a buffer.
ghost use Rattle.std.specs.Prelude.{◌≡◌, ◌≤◌, length};
ghost use Rattle.octets.specs.Wrote.{Wrote};
ghost use Rattle.calls.specs.Refusal.{answer_of};
ghost use Rattle.image.specs.Image.{partner_size, slot_bytes, slots_bytes, encode};
ghost use Rattle.sight.specs.Table.{table};
ghost use Rattle.row.specs.Stored as stored;

use calls::Refusal;
use partner::Entry;

// How many slots a row has.
const SLOTS: usize = 64;

// The kinds of records: an empty slot, our own identity, a partner.
const VACANT: u8 = 0;

const OURS: u8 = 1;

const PARTNER: u8 = 2;

// Start: 13 (the row has not 64 slots), 10 (our identity is malformed).
#[tactic(auto, unfolding(crate::specs::Stored::start_answer))]
pub fn start_answer(own: &[u8], slots: usize) -> Result<(), Refusal>
    ensures { answer_of result ≡ stored.start_answer own.now slots }
{
    if slots != SLOTS {
        return Err(Refusal::Illegal);
    }
    if !octets::is_name(own) {
        return Err(Refusal::BadIdentity);
    }
    Ok(())
}

// Image reading: 13 (the row has not 64 slots, or the image is not legal).
#[tactic(auto, unfolding(crate::specs::Stored::read_answer))]
pub fn read_answer(image: &[u8], slots: usize) -> Result<(), Refusal>
    ensures { answer_of result ≡ stored.read_answer image.now slots }
{
    if slots != SLOTS || !image::legal(image) {
        return Err(Refusal::Illegal);
    }
    Ok(())
}

// ---- image writing

// The length of a slot's record.
// By value: of a lent entry it isn't known that each of its names has 16 bytes.
#[tactic(auto, unfolding(image::specs::Image::slot_bytes))]
fn slot_length(e: Entry) -> usize
    ensures value { result ≡ length (slot_bytes e) }
    ensures upper_bound { result ≤ partner_size }
{
    if sight::is_empty(&e) {
        1
    } else {
        image::PARTNER_SIZE
    }
}

// The size of the row's image: the front and the slots' records.
pub fn size(row: &[Entry]) -> usize
    ensures { result ≡ stored.size row.now }
{
    let mut size = image::FRONT_SIZE;
    for e in row {
        size += slot_length(*e);
    }
    size
}

// A slot's record at the front of what is left: one byte 0, or 2 and the entry's record.
#[tactic(auto, unfolding(image::specs::Image::slot_bytes), using(octets::proofs::Writing::wrote_rest))]
fn put_slot(rest: &mut [u8], e: &Entry) -> usize
    ensures { Wrote (slot_bytes e.now) rest.old rest.new result }
{
    if sight::is_empty(e) {
        return octets::fill(rest, 1, VACANT);
    }
    let a = octets::fill(rest, 1, PARTNER);
    a + record::put_whole(&mut rest[a..], *e)
}

// The slots' records, one after the other.
fn put_slots(rest: &mut [u8], row: &[Entry]) -> usize
    ensures { Wrote (slots_bytes row.now) rest.old rest.new result }
{
    let mut at = 0;
    for e in row {
        at += put_slot(&mut rest[at..], e);
    }
    at
}

// The image: our identity's record, filled, and the slots'; as much of it as there is room for.
pub fn put_image(out: &mut [u8], own: &[u8], row: &[Entry]) -> usize
    ensures { Wrote (encode (table own.now row.now)) out.old out.new result }
{
    let a = octets::fill(out, 1, OURS);
    let b = a + octets::copy(&mut out[a..], &partner::name_of(own).bytes);
    b + put_slots(&mut out[b..], row)
}
