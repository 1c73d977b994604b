// What a call asks, and whom it is about.
ghost use Rattle.std.specs.Prelude.{◌≡◌};
ghost use Rattle.calls.specs.Refusal.{number};
ghost use Rattle.sight.specs.Aim as aims;

use calls::Refusal;
use keying::Top;
use partner::Name;

// What a call asks. The text that came, the request's bytes, the contents of SVR or the new key's name is lent beside it.
#[derive(Clone, Copy)]
pub enum Act {
    Receive,
    BuildKsm,
    BuildRsi,
    GiveUp,
    Remove,
    Ask,
    Load(Top),
}

// Our identity and the partner's, filled with blanks: ours and whether it is well-formed, the partner's where it is; whether a
// free slot is sought; the answer that a text gets before its partner is looked up, or 0; the room that is asked for.
#[derive(Clone, Copy)]
pub struct Aim {
    pub own: Name,
    // A flag beside a value: our identity is compared also where it is no name.
    pub ours: bool,
    pub partner: Option<Name>,
    pub vacant: bool,
    // A number, not a Refusal: `turn::refusal` gives it back, whatever it is.
    pub answer: u32,
    pub room: usize,
}

// An identity as it is kept, where it is well-formed.
fn identity(w: &[u8]) -> Option<Name>
    ensures { result ≡ aims.identity w.now }
{
    if octets::is_name(w) {
        Some(partner::name_of(w))
    } else {
        None
    }
}

impl Aim {
    // Ourselves, and nobody else.
    pub fn ours(own: &[u8]) -> Aim
        ensures { result ≡ aims.ours own.now }
    {
        Aim {
            own: partner::name_of(own),
            ours: octets::is_name(own),
            partner: None,
            vacant: false,
            answer: 0,
            room: 0,
        }
    }

    // A partner by its identity.
    pub fn at_partner(own: &[u8], partner: &[u8]) -> Aim
        ensures { result ≡ aims.at_partner own.now partner.now }
    {
        Aim {
            partner: identity(partner),
            ..Aim::ours(own)
        }
    }

    // A free slot for a partner.
    fn at_free_slot(own: &[u8], partner: &[u8]) -> Aim
        ensures { result ≡ aims.at_free_slot own.now partner.now }
    {
        Aim {
            vacant: true,
            ..Aim::at_partner(own, partner)
        }
    }

    // Nobody: the text is refused.
    fn refused(own: &[u8], refusal: Refusal) -> Aim
        ensures { result ≡ aims.refused own.now (number refusal) }
    {
        Aim {
            answer: refusal.number(),
            ..Aim::ours(own)
        }
    }

    // The originator of a text to us: 1 where it is no message, 2 where RCV is not us.
    fn of_text(own: &[u8], text: &[u8]) -> Aim
        ensures { result ≡ aims.of_text own.now text.now }
    {
        let Some(message) = reader::read(text) else {
            return Aim::refused(own, Refusal::NoMessage);
        };
        let head = message.head();
        if octets::part(text, head.rcv) != own {
            return Aim::refused(own, Refusal::ForAnother);
        }
        Aim::at_partner(own, octets::part(text, head.org))
    }

    // The same, and this room is asked for.
    pub fn with_room(self, room: usize) -> Aim
        ensures { result ≡ aims.with_room self room }
    {
        Aim { room, ..self }
    }
}

impl Act {
    // Whom a call is about: a reply may follow what is received and what is built; a load seeks a free slot.
    #[tactic(auto, unfolding(crate::specs::Aim::aim_of))]
    pub fn aim(self, own: &[u8], who: &[u8], text: &[u8]) -> Aim
        ensures { result ≡ aims.aim_of self own.now who.now text.now }
    {
        match self {
            Act::Receive => Aim::of_text(own, text).with_room(calls::ROOM),
            Act::BuildKsm | Act::BuildRsi => Aim::at_partner(own, who).with_room(calls::ROOM),
            Act::GiveUp | Act::Remove | Act::Ask => Aim::at_partner(own, who),
            Act::Load(_) => Aim::at_free_slot(own, who),
        }
    }
}
