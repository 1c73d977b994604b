// Build a KSM, build an RSI, give up, once the partner's entry is found: on one entry, lent.
#![tactic(auto)]

ghost use Rattle.std.specs.Prelude.{◌≡◌, length};
ghost use Rattle.octets.specs.First.{first};
ghost use Rattle.calls.specs.Refusal.{answer_of};
ghost use Rattle.outcome.specs.Report as report;
ghost use Rattle.outcome.specs.Acts as acts;
ghost use Rattle.calls.specs.Build as building;
ghost use Rattle.building.specs.Order as order;

use calls::{Refusal, Request};
use outcome::{Given, Parties, Told, Turned};
use partner::Entry;

mod message;
mod request;

// The answer of building a KSM where both parties are lawful, in the order of document 01: 6, 7, 8, 11, 12, or 0.
#[tactic(auto, unfolding(crate::specs::Order::build_ksm, calls::specs::Receive::is_waiting))]
fn judge(e: &Entry, q: &Request, room: usize) -> Result<(), Refusal>
    ensures { answer_of result ≡ first (order.build_ksm e.now room q.now) }
{
    if room < calls::ROOM {
        return Err(Refusal::NoRoom);
    }
    if e.sending.phase == partner::WAITING {
        return Err(Refusal::AlreadyWaiting);
    }
    if e.sending.next == partner::LIMIT {
        return Err(Refusal::CountUsedUp);
    }
    if request::any_not_odd(q) {
        return Err(Refusal::EvenKey);
    }
    if request::malformed(q) {
        return Err(Refusal::Malformed);
    }
    Ok(())
}

// Build a KSM: the message with the next send count, which rises by one; outgoing keys set; phase 1.
#[inline(never)]
#[tactic(auto, using(crate::proofs::Judging::judging), unfolding(outcome::specs::Report::turned, outcome::specs::Report::report, outcome::specs::Report::replied, crate::specs::Parts::fronted))]
pub fn build_ksm(own: &[u8], e: &Entry, q: &Request, reply: &mut [u8]) -> Result<Turned, Refusal>
    ensures value { report.turned_of e.now result ≡ report.turned (acts.build_ksm own.now e.now (length reply.old) q.now) }
    ensures reply_after { reply.new ≡ report.replied (acts.build_ksm own.now e.now (length reply.old) q.now).outcome reply.old }
{
    let us = Parties::new(own, e)?;
    judge(e, q, reply.len())?;
    let length = message::write(us, q, reply);
    Ok(Turned {
        entry: changes::with_sending(*e, changes::issued(e.sending, message::outgoing(q))),
        given: Given::Done {
            length,
            told: Told::Nothing,
        },
    })
}

// Build an RSI for the service whose contents of SVR these are; it changes nothing.
#[inline(never)]
#[tactic(auto, using(crate::proofs::Chosen::choices, crate::proofs::Wording::service_known), unfolding(outcome::specs::Acts::build_rsi, outcome::specs::Acts::guarded, calls::specs::Build::build_rsi, outcome::specs::Report::turned, outcome::specs::Report::report, outcome::specs::Report::replied, crate::specs::Parts::rsi_text, crate::specs::Parts::fronted))]
pub fn build_rsi(
    own: &[u8],
    e: &Entry,
    contents: &[u8],
    reply: &mut [u8],
) -> Result<Turned, Refusal>
    ensures value { report.turned_of e.now result ≡ report.turned (acts.build_rsi own.now e.now (length reply.old) contents.now) }
    ensures reply_after { reply.new ≡ report.replied (acts.build_rsi own.now e.now (length reply.old) contents.now).outcome reply.old }
{
    let us = Parties::new(own, e)?;
    if reply.len() < calls::ROOM {
        return Err(Refusal::NoRoom);
    }
    let place = fields::service(contents).ok_or(Refusal::Malformed)?;
    let length = message::write_rsi(us, place, reply);
    Ok(Turned {
        entry: *e,
        given: Given::Done {
            length,
            told: Told::Nothing,
        },
    })
}

// Give up: 5 where nothing is waiting, else phase 3 and keys wiped.
#[inline(never)]
#[tactic(auto, using(crate::proofs::Chosen::choices), unfolding(calls::specs::Build::give_up, calls::specs::Receive::is_waiting, outcome::specs::Report::turned, outcome::specs::Report::report))]
pub fn give_up(e: &Entry) -> Result<Turned, Refusal>
    ensures { report.turned_of e.now result ≡ report.turned (building.give_up e.now) }
{
    if e.sending.phase != partner::WAITING {
        return Err(Refusal::NothingWaiting);
    }
    Ok(Turned {
        entry: changes::with_sending(*e, changes::given_up(e.sending)),
        given: Given::Done {
            length: 0,
            told: Told::Nothing,
        },
    })
}
