// What a call gives, in code: what it does where it is not refused, and one partner's entry after it; and the flat report of it.
#![tactic(auto)]

ghost use Rattle.std.specs.Prelude.{◌≡◌, true, false, IfOk, IfErr};
ghost use Rattle.calls.specs.declared.Refusal.TheVariants.{Illegal};
ghost use Rattle.outcome.specs.declared.Told.TheVariants.{Service, Keys, Confirmation, Failure};
ghost use Rattle.calls.specs.Outcome as outcomes;
ghost use Rattle.outcome.specs.Report as report;
ghost use Rattle.outcome.specs.Acts as acts;

use calls::{Date, Refusal};
use partner::Entry;

// The classes, as a report numbers them; 0 is none.
pub const RSI: u8 = 1;

pub const KSM: u8 = 2;

pub const RSM: u8 = 3;

pub const ESM: u8 = 4;

// What is told besides: of an RSI the number of the service wanted, of a KSM IV and date, of an ESM its letters.
#[derive(Clone, Copy)]
pub enum Told {
    Nothing,
    Service(u64),
    Keys { iv: Option<u64>, date: Option<Date> },
    Confirmation,
    Failure(u64),
}

// What a call gives that is not refused: 0, with the length of its reply; or 4, the letters of an error that was found, and the
// length of the ESM.
#[derive(Clone, Copy)]
pub enum Given {
    Done { length: usize, told: Told },
    Complaint { letters: u64, length: usize },
}

// One partner's entry after a call that is not refused, and what the call gives.
#[derive(Clone, Copy)]
pub struct Turned {
    pub entry: Entry,
    pub given: Given,
}

// A call's answer, the letters of an error, ours or those of an ESM that was taken, the length of its reply; the class of
// the message read, 1 an RSI, 2 a KSM, 3 an RSM, 4 an ESM, else 0; the service that an RSI wants, from 1 on, else 0; IV and
// date of a KSM, each with a presence of its own, zero where there is none.
// Flat, with numbers: C's report of 32 bytes and the lent row are told by it (card/specs/Over, row/specs/Calls, host/specs/Report).
#[derive(Clone, Copy)]
pub struct Report {
    pub answer: u32,
    pub letters: u64,
    pub length: usize,
    pub class: u8,
    pub service: u64,
    pub vector: bool,
    pub iv: u64,
    pub dated: bool,
    pub date: Date,
}

// The answer, the letters of our own error and the length of the reply; nothing is told.
fn plain(answer: u32, letters: u64, length: usize) -> Report
    ensures { result ≡ report.plain answer letters length }
{
    Report {
        answer,
        letters,
        length,
        class: 0,
        service: 0,
        vector: false,
        iv: 0,
        dated: false,
        date: Date { digits: [0; 12] },
    }
}

// An RSI: the service wanted, by its place among the twelve contents of SVR; they are numbered from 1 on, 0 is none of them.
pub fn told_service(place: u64) -> Told
    ensures { result ≡ Service (report.service_number place) }
{
    Told::Service(if place < 12 { place + 1 } else { 0 })
}

// An RSI: the number of the service wanted.
fn told_number(length: usize, number: u64) -> Report
    ensures { result ≡ report.told_of length (Service number) }
{
    Report {
        class: RSI,
        service: number,
        ..plain(0, 0, length)
    }
}

// A KSM: its IV, zero where there is none, and its date, zeros where there is none.
fn told_keys(length: usize, iv: Option<u64>, date: Option<Date>) -> Report
    ensures { result ≡ report.told_of length (Keys iv date) }
{
    let none = plain(0, 0, length);
    Report {
        class: KSM,
        vector: iv.is_some(),
        iv: iv.unwrap_or(0),
        dated: date.is_some(),
        date: date.unwrap_or(none.date),
        ..none
    }
}

// An RSM: it confirms.
fn told_confirmation(length: usize) -> Report
    ensures { result ≡ report.told_of length Confirmation }
{
    Report {
        class: RSM,
        ..plain(0, 0, length)
    }
}

// An ESM: its letters.
fn told_failure(length: usize, letters: u64) -> Report
    ensures { result ≡ report.told_of length (Failure letters) }
{
    Report {
        class: ESM,
        ..plain(0, letters, length)
    }
}

// The flat report of a refusal by its number: every other part is zero or empty.
#[tactic(auto, unfolding(crate::specs::Report::report))]
pub fn refusal(answer: u32) -> Report
    ensures { result ≡ report.report (outcomes.refusal answer) }
{
    plain(answer, 0, 0)
}

// The flat report of what a call gives. Of a refusal every other part is zero or empty.
pub fn report_of(given: Result<Given, Refusal>) -> Report
    ensures { result ≡ report.report_of given }
{
    match given {
        Err(refusal) => plain(refusal.number(), 0, 0),
        Ok(Given::Complaint { letters, length }) => plain(4, letters, length),
        Ok(Given::Done { length, told }) => match told {
            Told::Nothing => plain(0, 0, length),
            Told::Service(number) => told_number(length, number),
            Told::Keys { iv, date } => told_keys(length, iv, date),
            Told::Confirmation => told_confirmation(length),
            Told::Failure(letters) => told_failure(length, letters),
        },
    }
}

// Whether our identity and the entry are as a legal table has them.
#[tactic(auto, unfolding(crate::specs::Acts::sound))]
pub fn is_sound(own: &[u8], e: &Entry) -> bool
    ensures { result ≡ acts.sound own.now e.now }
{
    octets::is_name(own) && rules::legal(*e)
}

// Our identity and the partner's entry, both as a legal table has them.
#[derive(Clone, Copy)]
pub struct Parties<'a> {
    pub own: &'a [u8],
    pub e: &'a Entry,
    pub ghost sound: { acts.sound own.now e.now ≡ true },
}

impl<'a> Parties<'a> {
    // 13 where one of them is not.
    pub fn new(own: &'a [u8], e: &'a Entry) -> Result<Parties<'a>, Refusal>
        ensures sound { IfOk result (λ p. (p.own ≡ own.entry) × (p.e ≡ e.entry)) }
        ensures unsound { IfErr result (λ r. (r ≡ Illegal) × (acts.sound own.now e.now ≡ false)) }
    {
        if !is_sound(own, e) {
            return Err(Refusal::Illegal);
        }
        Ok(Parties { own, e })
    }
}
