// The kinds of records, one row each: its number, and the length of its record, which is the kind's byte and the body.
// They stay bytes: `record_length` of specs/Image has an answer for a byte that is no kind.
ghost use Rattle.std.specs.Prelude.{◌≡◌};
ghost use Rattle.image.specs.Image as images;

// An empty slot.
pub(crate) const VACANT: u8 = 0;

pub(crate) const VACANT_SIZE: usize = 1;

// Our own identity: the front of an image.
pub(crate) const OURS: u8 = 1;

pub const FRONT_SIZE: usize = 1 + 16;

// A partner.
pub(crate) const PARTNER: u8 = 2;

pub const PARTNER_SIZE: usize = 1 + record::SIZE;

// The length of a record by its kind; of no kind only the byte.
#[tactic(auto, unfolding(crate::specs::Image::record_length))]
pub(crate) fn record_length(kind: u8) -> usize
    ensures { result ≡ images.record_length kind }
{
    match kind {
        VACANT => VACANT_SIZE,
        OURS => FRONT_SIZE,
        PARTNER => PARTNER_SIZE,
        _ => 1,
    }
}
