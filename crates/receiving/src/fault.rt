// Why a message is not taken.
ghost use Rattle.receiving.specs.declared.fault.Fault.TheVariants.{Refused, Error};
ghost use Rattle.std.specs.Prelude.{◌≡◌, None};

use calls::Refusal;
use messages::Counts;

// A refusal, or an error that an ESM tells: its letters, and with P the counts.
#[derive(Clone, Copy)]
pub(crate) enum Fault {
    Refused(Refusal),
    Error {
        letters: u64,
        counts: Option<Counts>,
    },
}

impl Fault {
    // An error of this letter alone.
    pub fn alone(letter: u64) -> Fault
        ensures { result ≡ Error letter None }
    {
        Fault::Error {
            letters: letter,
            counts: None,
        }
    }
}

impl From<Refusal> for Fault {
    ghost from_gives = { λ r f. f ≡ Refused r };

    fn from(refusal: Refusal) -> Fault {
        Fault::Refused(refusal)
    }
}
