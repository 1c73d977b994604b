// What is seen of an image: the slot that is sought.
ghost use Rattle.std.specs.Prelude.{◌≡◌, cond};
ghost use Rattle.image.specs.Places.{below, free_slot};
ghost use Rattle.card.specs.Ways as ways;

use sight::aims::Aim;

// The slot of the partner whom an aim names.
#[tactic(auto, unfolding(crate::specs::Ways::theirs))]
pub(crate) fn theirs(image: &[u8], aim: &Aim) -> Option<usize>
    ensures { result ≡ below 64 (ways.theirs aim.now image.now) }
{
    let partner = aim.partner?;
    image::slot_of(image, &partner.bytes)
}

// The slot that is sought, a free one or the partner's.
pub(crate) fn sought(image: &[u8], aim: &Aim, theirs: Option<usize>) -> Option<usize>
    ensures { result ≡ cond aim.now.vacant (below 64 (free_slot image.now)) theirs }
{
    if aim.vacant {
        image::free_slot(image)
    } else {
        theirs
    }
}
