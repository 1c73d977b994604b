// From a lent text to its reading: which class, where its fields stand, and its numbers.
#![tactic(auto)]

mod options;
mod rows;

ghost use Rattle.std.specs.Prelude.{◌≡◌, drop};
ghost use Rattle.csm.specs.Message as csm;
ghost use Rattle.reader.specs.Seen as seen;
ghost use Rattle.reader.specs.Stages as stages;

use fields::{Class, Kd, Numeral};
use octets::Span;

// Where RCV and ORG stand.
#[derive(Clone, Copy)]
pub struct Head {
    pub rcv: Span,
    pub org: Span,
}

// An RSI: the place of its service among the twelve, and where SVR stands.
#[derive(Clone, Copy)]
pub struct Rsi {
    pub head: Head,
    pub service: u64,
    pub svr: Span,
    pub edc: Option<Numeral>,
}

// A KSM: whether NOS stands there: its keys are notarized; its KDs; where IV and EDK stand; CTP and MAC.
#[derive(Clone, Copy)]
pub struct Ksm {
    pub head: Head,
    pub nos: bool,
    pub first: Kd,
    pub second: Option<Kd>,
    pub iv: Option<Span>,
    pub edk: Option<Span>,
    pub ctp: Numeral,
    pub mac: Numeral,
}

// An RSM.
#[derive(Clone, Copy)]
pub struct Rsm {
    pub head: Head,
    pub mac: Numeral,
}

// An ESM: its letters as a number, A the lowest bit.
#[derive(Clone, Copy)]
pub struct Esm {
    pub head: Head,
    pub ctp: Option<Numeral>,
    pub ctr: Option<Numeral>,
    pub erf: Numeral,
    pub edc: Option<Numeral>,
}

// An option: its class and where its rest stands.
#[derive(Clone, Copy)]
pub struct Rest {
    pub head: Head,
    pub class: Class,
    pub rest: Span,
}

// What a text is read as.
#[derive(Clone, Copy)]
pub enum Message {
    Rsi(Rsi),
    Ksm(Ksm),
    Rsm(Rsm),
    Esm(Esm),
    Option(Rest),
}

impl Message {
    // Where RCV and ORG stand.
    pub fn head(&self) -> Head
        ensures { result ≡ seen.head_in self.now }
    {
        match self {
            Message::Rsi(message) => message.head,
            Message::Ksm(message) => message.head,
            Message::Rsm(message) => message.head,
            Message::Esm(message) => message.head,
            Message::Option(message) => message.head,
        }
    }
}

// RCV and ORG, and where what follows them starts.
fn names_at(text: &[u8], at: usize) -> Option<(Head, usize)>
    ensures { result ≡ stages.names_at text.now at }
{
    let rcv = fields::run_field(text, at, b"RCV/", b'Z', 1, 16);
    let org = fields::run_field(text, rcv.next, b"ORG/", b'Z', 1, 16);
    let head = Head {
        rcv: rcv.contents?,
        org: org.contents?,
    };
    Some((head, org.next))
}

// What follows the head, by its class.
fn body_at(text: &[u8], at: usize, class: Class, head: Head) -> Option<Message>
    ensures { result ≡ stages.body class head at (drop at text.now) }
{
    if options::is_option(text, at, class) {
        return options::rest_at(text, at, class, head);
    }
    match class {
        Class::Rsi => rows::rsi_at(text, at, head),
        Class::Ksm => rows::ksm_at(text, at, head),
        Class::Rsm => rows::rsm_at(text, at, head),
        Class::Esm => rows::esm_at(text, at, head),
        Class::Dsm | Class::Ers | Class::Rfs | Class::Rtr => None,
    }
}

// What the text is read as.
pub fn read(text: &[u8]) -> Option<Message>
    ensures { result ≡ seen.seen (csm.read text.now) }
{
    if 512 < text.len() {
        return None;
    }
    if !octets::starts(text, 0, b"CSM(") {
        return None;
    }
    let (head, next) = names_at(text, 12)?;
    let class = fields::class_field(text, 4)?;
    body_at(text, next, class, head)
}

// The part that the MAC of a KSM or an RSM covers, where its contents stand there: from the M of `MCL/` through the blank
// before `MAC/`.
pub fn covered(mac: Span) -> Span
    ensures { result ≡ seen.covered_span mac }
{
    Span {
        at: 4,
        length: mac.at.saturating_sub(8),
    }
}
