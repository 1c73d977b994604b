// The script: whose move it is, what it is, and the letters between the two cards.
use crate::{keys, print};
use outcome::Report;
use sight::aims::Act;
use std::{fmt, io};

// What a card does.
#[derive(Clone, Copy, PartialEq, Eq)]
pub enum Move {
    Start,
    Load,
    Remove,
    Ask,
    GiveUp,
    BuildKsm,
    BuildRsi,
    Receive,
    Write,
    Read,
    Judge,
}

// The move in words.
impl fmt::Display for Move {
    fn fmt<W: fmt::Write>(&self, f: &mut fmt::Formatter<W>) -> fmt::Result {
        f.write_str(match self {
            Move::Start => "starts",
            Move::Load => "loads the pair",
            Move::Remove => "removes its partner",
            Move::Ask => "asks for its partner",
            Move::GiveUp => "gives up",
            Move::BuildKsm => "builds a KSM",
            Move::BuildRsi => "builds an RSI",
            Move::Receive => "receives",
            Move::Write => "writes its image",
            Move::Read => "reads its image",
            Move::Judge => "looks its row over",
        })
    }
}

// How many moves there are.
pub const MOVES: usize = 36;

// The two cards.
#[derive(Clone, Copy, PartialEq, Eq)]
pub enum Side {
    Alpha,
    Bravo,
}

impl Side {
    // Whose move that is: even moves are ALPHA's, odd ones BRAVO's.
    pub(crate) fn of(number: usize) -> Side {
        if number % 2 == 0 {
            Side::Alpha
        } else {
            Side::Bravo
        }
    }

    // The other card.
    pub(crate) fn partner(self) -> Side {
        match self {
            Side::Alpha => Side::Bravo,
            Side::Bravo => Side::Alpha,
        }
    }

    // The card's identity.
    pub(crate) fn identity(self) -> &'static str {
        match self {
            Side::Alpha => "ALPHA",
            Side::Bravo => "BRAVO",
        }
    }
}

// What a card has put out: at most 256 bytes, which stand in an array since the card and its rehearsal use no heap.
#[derive(Clone, Copy)]
pub struct Letter {
    bytes: [u8; 256],
    length: usize,
}

// A letter of these bytes, of which it holds as many as it has room for.
impl From<&[u8]> for Letter {
    fn from(text: &[u8]) -> Letter {
        let mut bytes = [0u8; 256];
        let length = octets::copy(&mut bytes, text);
        Letter { bytes, length }
    }
}

impl Letter {
    // Its bytes.
    pub(crate) fn text(&self) -> &[u8] {
        self.bytes.get(..self.length).unwrap_or(&self.bytes)
    }
}

// What each card put out last.
#[derive(Clone, Copy)]
pub struct Letters {
    alpha: Letter,
    bravo: Letter,
}

impl Letters {
    // Before the first move.
    pub(crate) fn none() -> Letters {
        let none = Letter::from(b"".as_slice());
        Letters {
            alpha: none,
            bravo: none,
        }
    }

    // What that card put out.
    fn of(self, side: Side) -> Letter {
        match side {
            Side::Alpha => self.alpha,
            Side::Bravo => self.bravo,
        }
    }

    // A card's letter anew.
    fn put(&mut self, side: Side, letter: Letter) {
        match side {
            Side::Alpha => self.alpha = letter,
            Side::Bravo => self.bravo = letter,
        }
    }
}

// The move of that number.
pub(crate) fn act(number: usize) -> Move {
    match number {
        0 | 1 => Move::Start,
        2 | 3 => Move::Load,
        // Monday's key, whose KSM comes twice.
        4 => Move::BuildKsm,
        5..=8 => Move::Receive,
        9 | 10 => Move::Ask,
        // BRAVO wants a key; the first KSM is lost.
        11 => Move::BuildRsi,
        12 => Move::Receive,
        14 => Move::BuildKsm,
        16 => Move::GiveUp,
        18 => Move::BuildKsm,
        19 | 20 => Move::Receive,
        21 | 22 => Move::Ask,
        // Both tables are stored, and read into rows started afresh.
        23 | 24 => Move::Write,
        25 | 26 => Move::Start,
        27 => Move::Ask,
        28 | 29 => Move::Read,
        30 | 31 => Move::Ask,
        32 | 33 => Move::Remove,
        34 => Move::Ask,
        _ => Move::Judge,
    }
}

// What a call asks, by the move.
pub(crate) fn asked(act: Move) -> Act {
    match act {
        Move::Load => Act::Load(keys::top()),
        Move::Remove => Act::Remove,
        Move::GiveUp => Act::GiveUp,
        Move::BuildKsm => Act::BuildKsm,
        Move::BuildRsi => Act::BuildRsi,
        _ => Act::Receive,
    }
}

// What goes with a move: the name of the key loaded, the service, the request of the day's keys, what the partner put out
// last, or what the card itself did.
pub(crate) fn given(number: usize, letters: Letters) -> Letter {
    let side = Side::of(number);
    match act(number) {
        Move::Load => Letter::from(b"LINE1".as_slice()),
        Move::BuildRsi => Letter::from(b"KD.IV".as_slice()),
        Move::BuildKsm if number < 14 => Letter::from(keys::monday().as_slice()),
        Move::BuildKsm => Letter::from(keys::tuesday().as_slice()),
        Move::Receive => letters.of(side.partner()),
        _ => letters.of(side),
    }
}

// What a call gave is told, and its reply lies ready for the partner.
pub(crate) fn after(
    rt: &impl Print,
    number: usize,
    letters: &mut Letters,
    reply: &[u8],
    report: Report,
) -> io::Result<()> {
    print::told(rt, report)?;
    if let Some(put) = reply.get(..report.length) {
        if !put.is_empty() {
            print::text(rt, act(number), put)?;
            letters.put(Side::of(number), Letter::from(put));
        }
    }
    Ok(())
}
