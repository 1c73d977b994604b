// What is seen of a row, slot by slot.
#![tactic(auto)]

ghost use Rattle.std.specs.Prelude.{◌≡◌};
ghost use Rattle.partner.specs.Entry.{empty};
ghost use Rattle.partner.specs.Table.{is_empty};
ghost use Rattle.calls.specs.Refusal.{number};
ghost use Rattle.sight.specs.Sight as sights;

pub mod aims;

use aims::Aim;
use calls::Refusal;
use partner::{Entry, Name};

// Whether the row is legal, whether the partner is in it, the number of the slot that is sought, where there is one, and its
// entry.
#[derive(Clone, Copy)]
pub struct Sight {
    pub legal: bool,
    pub taken: bool,
    pub slot: Option<usize>,
    // Beside the number, not with it: `turn::take` gives an entry back with every refusal, also where no slot is there.
    pub entry: Entry,
}

// The part of it that the order of answers asks for.
#[derive(Clone, Copy)]
pub struct Glance {
    pub legal: bool,
    pub taken: bool,
    pub there: bool,
}

// What was looked up: the answer so far, the number of the slot, and its entry.
// Flat: `ask_13`, `ask_3` and `ask_0` of row/specs/Orders speak of its numbers.
#[derive(Clone, Copy)]
pub struct Found {
    pub answer: u32,
    pub slot: usize,
    pub entry: Entry,
}

// Whether a slot is empty: zero in every byte of its record, of which `is_empty` of partner/specs/Table speaks.
#[tactic(auto, unfolding(partner::specs::Table::is_empty, partner::specs::Record::put_entry))]
pub fn is_empty(e: &Entry) -> bool
    ensures { result ≡ is_empty e.now }
{
    let mut bytes = [0; record::SIZE];
    record::put_entry(&mut bytes, *e);
    bytes == [0; record::SIZE]
}

// Whether an entry has that identity; none has one that is no name.
fn is_of(identity: Option<Name>, e: &Entry) -> bool
    ensures { result ≡ sights.is_of identity e.now }
{
    match identity {
        Some(name) => e.identity.bytes == name.bytes,
        None => false,
    }
}

// Whether a later slot does not have the identity of e.
#[tactic(auto, unfolding(crate::specs::Sight::differ))]
pub fn differ(e: &Entry, later: &Entry) -> bool
    ensures { result ≡ sights.differ e.now later.now }
{
    is_empty(later) || !is_of(Some(e.identity), later)
}

impl Aim {
    // Whether a slot is as it must be: empty, or a legal entry with an identity of its own.
    #[tactic(auto, unfolding(crate::specs::Sight::slot_legal))]
    fn slot_legal(&self, e: &Entry, apart: bool) -> bool
        ensures { result ≡ sights.slot_legal self.now e.now apart }
    {
        is_empty(e) || (apart && !is_of(Some(self.own), e) && rules::legal(*e))
    }

    // Whether a slot is the partner's.
    #[tactic(auto, unfolding(crate::specs::Sight::is_theirs))]
    fn is_theirs(&self, e: &Entry) -> bool
        ensures { result ≡ sights.is_theirs self.now e.now }
    {
        is_of(self.partner, e)
    }

    // Whether a slot is the one that is sought: a free one, or the partner's.
    #[tactic(auto, unfolding(crate::specs::Sight::is_sought))]
    fn is_sought(&self, e: &Entry) -> bool
        ensures { result ≡ sights.is_sought self.now e.now }
    {
        if self.vacant {
            is_empty(e)
        } else {
            self.is_theirs(e)
        }
    }
}

// What is shown with a refusal.
fn not_shown(refusal: Refusal) -> Found
    ensures { result ≡ sights.shown_at (number refusal) 64 empty }
{
    Found {
        answer: refusal.number(),
        slot: 64,
        entry: partner::empty(),
    }
}

impl Sight {
    // Nothing is seen yet.
    pub fn unseen() -> Sight
        ensures { result ≡ sights.unseen }
    {
        Sight {
            legal: true,
            taken: false,
            slot: None,
            entry: partner::empty(),
        }
    }

    // The slot at a place is seen; `apart` where no later one has its identity.
    #[tactic(auto, unfolding(crate::specs::Sight::see))]
    pub fn see(&mut self, aim: &Aim, at: usize, e: &Entry, apart: bool)
        ensures { self.new ≡ sights.see aim.now self.old at e.now apart }
    {
        self.legal = self.legal && aim.slot_legal(e, apart);
        self.taken = self.taken || aim.is_theirs(e);
        if self.slot.is_none() && aim.is_sought(e) {
            self.slot = Some(at);
            self.entry = *e;
        }
    }

    // All slots are seen: legal with 64 of them and our own identity well-formed.
    #[tactic(auto, unfolding(crate::specs::Sight::concluded))]
    pub fn conclude(&mut self, aim: &Aim, count: usize)
        ensures { self.new ≡ sights.concluded aim.now self.old count }
    {
        self.legal = self.legal && count == 64 && aim.ours;
    }

    // The answer to who asks for an entry, the number of its slot, and the entry; 64 and an empty one with a refusal.
    #[tactic(auto, unfolding(crate::specs::Sight::shown))]
    pub fn shown(&self) -> Found
        ensures { result ≡ sights.shown self.now }
    {
        if !self.legal {
            return not_shown(Refusal::Illegal);
        }
        match self.slot {
            Some(slot) => Found {
                answer: 0,
                slot,
                entry: self.entry,
            },
            None => not_shown(Refusal::NoPartner),
        }
    }
}
