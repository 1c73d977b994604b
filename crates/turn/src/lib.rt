// The way of a call: the order of its answers, and the turn of one entry.
#![tactic(auto)]

ghost use Rattle.std.specs.Prelude.{◌≡◌, [], length};
ghost use Rattle.octets.specs.First.{first};
ghost use Rattle.calls.specs.Outcome as calls;
ghost use Rattle.outcome.specs.Report as report;
ghost use Rattle.turn.specs.Way as way;

use calls::Refusal;
use outcome::{Given, Report, Told, Turned};
use partner::{Entry, Name};
use sight::aims::{Act, Aim};
use sight::{Glance, Sight};

// ---- the order of the answers

// Whether a partner's name is our own; where there is none, it is not.
fn is_own(own: Name, partner: Option<Name>) -> bool
    ensures { result ≡ way.is_own own partner }
{
    match partner {
        Some(name) => own.bytes == name.bytes,
        None => false,
    }
}

// Whether an identity is malformed, our own, or taken.
#[tactic(auto, unfolding(crate::specs::Way::unfit))]
fn unfit(aim: &Aim, glance: Glance) -> bool
    ensures { result ≡ way.unfit aim.now glance }
{
    aim.partner.is_none() || glance.taken || is_own(aim.own, aim.partner)
}

// Of a load: 10, 12, 11, 9.
fn loading(aim: &Aim, glance: Glance, named: bool, odd: bool) -> u32
    ensures { result ≡ first (way.loading aim.now glance named odd) }
{
    if unfit(aim, glance) {
        return Refusal::BadIdentity.number();
    }
    if !named {
        return Refusal::Malformed.number();
    }
    if !odd {
        return Refusal::EvenKey.number();
    }
    if !glance.there {
        return Refusal::TableFull.number();
    }
    0
}

// Of a call about an entry that is there: 1 or 2 of a text, then 3.
fn looking_up(aim: &Aim, glance: Glance) -> u32
    ensures { result ≡ first (way.looking_up aim.now glance) }
{
    if aim.answer != 0 {
        return aim.answer;
    }
    if !glance.there {
        return Refusal::NoPartner.number();
    }
    0
}

// The refusal that comes before the turn, or 0: 13, 6, then by what is asked.
// A number, not a Refusal: the answer that the aim has for a text is given back, whatever number it is.
pub fn refusal(aim: &Aim, glance: Glance, act: Act, text: &[u8], room: usize) -> u32
    ensures { result ≡ first (way.order aim.now glance act text.now room) }
{
    if !glance.legal {
        return Refusal::Illegal.number();
    }
    if room < aim.room {
        return Refusal::NoRoom.number();
    }
    match act {
        Act::Load(top) => loading(aim, glance, octets::is_name(text), sealing::odd_top(top)),
        _ => looking_up(aim, glance),
    }
}

// ---- the turn of one entry

// 0: the entry as it is now, and nothing told.
#[inline(never)]
fn plain(entry: Entry) -> Turned
    ensures { result ≡ record { entry = entry; given = Given.Done 0 Told.Nothing } }
{
    Turned {
        entry,
        given: Given::Done {
            length: 0,
            told: Told::Nothing,
        },
    }
}

// What is asked of one entry; of a load the new entry, with `text` as the key's name.
// A switch over an enum: `call_of` of sight/specs/Asked and the contract of `row::call` speak of the act.
#[tactic(auto, unfolding(crate::specs::Way::turn, outcome::specs::Report::turned, outcome::specs::Report::report, outcome::specs::Report::replied, calls::specs::Build::give_up))]
#[inline(always)]
pub fn turn(
    own: &[u8],
    partner: Option<Name>,
    e: &Entry,
    act: Act,
    text: &[u8],
    reply: &mut [u8],
) -> Result<Turned, Refusal>
    ensures value { report.turned_of e.now result ≡ report.turned (way.turn own.now partner e.now act text.now (length reply.old)) }
    ensures reply_after { reply.new ≡ report.replied (way.turn own.now partner e.now act text.now (length reply.old)).outcome reply.old }
{
    match act {
        Act::Receive => receiving::receive(own, e, text, reply),
        Act::BuildKsm => building::build_ksm(own, e, &request::request_in(text), reply),
        Act::BuildRsi => building::build_rsi(own, e, text, reply),
        Act::GiveUp => building::give_up(e),
        Act::Remove => Ok(plain(partner::empty())),
        Act::Ask => Ok(plain(*e)),
        Act::Load(top) => {
            let identity = partner.ok_or(Refusal::BadIdentity)?;
            Ok(plain(changes::loaded(identity, partner::name_of(text), top)))
        }
    }
}

// A call over what is seen: the entry as it was, with a refusal, or its turn; and the report.
#[tactic(auto, unfolding(crate::specs::Way::take, crate::specs::Way::refusal, outcome::specs::Report::turned, outcome::specs::Report::report, outcome::specs::Report::replied))]
pub fn take(
    own: &[u8],
    aim: &Aim,
    seen: &Sight,
    act: Act,
    text: &[u8],
    reply: &mut [u8],
) -> (Entry, Report)
    ensures entry { result.0 ≡ (way.take own.now aim.now seen.now act text.now (length reply.old)).entry }
    ensures value { result.1 ≡ report.report (way.take own.now aim.now seen.now act text.now (length reply.old)).outcome }
    ensures reply_after { reply.new ≡ report.replied (way.take own.now aim.now seen.now act text.now (length reply.old)).outcome reply.old }
{
    let glance = Glance {
        legal: seen.legal,
        taken: seen.taken,
        there: seen.slot.is_some(),
    };
    let answer = refusal(aim, glance, act, text, reply.len());
    if answer != 0 {
        return (seen.entry, outcome::refusal(answer));
    }
    match turn(own, aim.partner, &seen.entry, act, text, reply) {
        Ok(turned) => (turned.entry, outcome::report_of(Ok(turned.given))),
        Err(refused) => (seen.entry, outcome::report_of(Err(refused))),
    }
}
