// Receive, once the partner's entry is found: by class, on one entry, lent.
#![tactic(auto)]

ghost use Rattle.std.specs.Prelude.{◌≡◌, ◌^◌, ◌<◌, length, IfSome};
ghost use Rattle.csm.specs.Message as csm;
ghost use Rattle.reader.specs.Seen as seen;
ghost use Rattle.outcome.specs.Report as report;
ghost use Rattle.outcome.specs.Acts as acts;
ghost use Rattle.receiving.specs.Stages as stages;

use calls::{Refusal, letters};
use fault::Fault;
pub use keys::name_in_force;
use outcome::{Given, Parties, Told, Turned};
use partner::Entry;
use reader::{Esm, Ksm, Message, Rsm};

mod fault;
mod judging;
mod keys;
mod replies;

// What a message that is taken makes: the entry after it, and what is told.
#[derive(Clone, Copy)]
pub(crate) struct Taken {
    pub entry: Entry,
    pub told: Told,
}

// A text and its message stay two parameters: a part of it is `octets::part(text, span)` either way.

// A KSM: I alone, K alone, then F, M and P together; otherwise the keys and names replace the incoming ones.
#[inline(never)]
#[tactic(auto, unfolding(crate::specs::Stages::take_ksm))]
fn take_ksm(us: Parties, text: &[u8], m: &Ksm) -> Result<Taken, Fault>
    requires { m.now.ctp.value < 2 ^ 32 }
    ensures { result ≡ stages.take_ksm us.entry.own.now us.entry.e.now text.now m.now }
{
    let set = keys::open_keys(us, text, m)?;
    let told = judging::judge(us.e, set, text, m)?;
    let receiving = changes::accepted(m.ctp.value as u32, set);
    Ok(Taken {
        entry: changes::with_receiving(*us.e, receiving),
        told,
    })
}

// 5 where no key message waits.
#[tactic(auto, unfolding(calls::specs::Receive::is_waiting))]
fn awaited(e: &Entry) -> Result<(), Refusal>
    ensures { result ≡ stages.awaited e.now }
{
    if e.sending.phase == partner::WAITING {
        return Ok(());
    }
    Err(Refusal::NothingWaiting)
}

// An RSM: 5; the MAC differs under the outgoing keys, M, still waiting; otherwise phase 2.
#[inline(never)]
#[tactic(auto, unfolding(crate::specs::Stages::take_rsm))]
fn take_rsm(e: &Entry, text: &[u8], m: &Rsm) -> Result<Taken, Fault>
    ensures { result ≡ stages.take_rsm e.now text.now m.now }
{
    awaited(e)?;
    if judging::bad_mac(partner::data_keys(e.sending.outgoing), text, m.mac) {
        return Err(Fault::alone(letters::M));
    }
    Ok(Taken {
        entry: changes::with_sending(*e, changes::settled(e.sending)),
        told: Told::Confirmation,
    })
}

// An ESM: 5; otherwise phase 3, keys wiped, next send the larger of itself and CTP.
#[inline(never)]
#[tactic(auto, unfolding(crate::specs::Stages::take_esm))]
fn take_esm(e: &Entry, m: &Esm) -> Result<Taken, Fault>
    requires { IfSome m.now.ctp (λ n. n.value < 2 ^ 32) }
    ensures { result ≡ stages.take_esm e.now m.now }
{
    awaited(e)?;
    let sending = match m.ctp {
        Some(ctp) => changes::failed(e.sending, ctp.value as u32),
        None => changes::given_up(e.sending),
    };
    Ok(Taken {
        entry: changes::with_sending(*e, sending),
        told: Told::Failure(m.erf.value),
    })
}

// What the text makes of the entry: 1, then by class; an RSI: the service wanted is returned; an option: O.
#[inline(never)]
#[tactic(auto, unfolding(crate::specs::Stages::take), using(crate::proofs::Reading::ksm_fits, crate::proofs::Reading::esm_fits))]
fn take(us: Parties, text: &[u8]) -> Result<Taken, Fault>
    ensures { result ≡ stages.take us.entry.own.now us.entry.e.now text.now (seen.seen (csm.read text.now)) }
{
    let Some(message) = reader::read(text) else {
        return Err(Fault::Refused(Refusal::NoMessage));
    };
    match &message {
        Message::Rsi(m) => Ok(Taken {
            entry: *us.e,
            told: outcome::told_service(m.service),
        }),
        Message::Ksm(m) => take_ksm(us, text, m),
        Message::Rsm(m) => take_rsm(us.e, text, m),
        Message::Esm(m) => take_esm(us.e, m),
        Message::Option(_) => Err(Fault::alone(letters::O)),
    }
}

// Receive, once the partner's entry is found: 13, 6, then what the text makes of it; 4 alone writes its ESM, and changes nothing.
#[inline(never)]
pub fn receive(own: &[u8], e: &Entry, text: &[u8], reply: &mut [u8]) -> Result<Turned, Refusal>
    ensures value { report.turned_of e.now result ≡ report.turned (acts.receive own.now e.now (length reply.old) text.now) }
    ensures reply_after { reply.new ≡ report.replied (acts.receive own.now e.now (length reply.old) text.now).outcome reply.old }
{
    let us = Parties::new(own, e)?;
    if reply.len() < calls::ROOM {
        return Err(Refusal::NoRoom);
    }
    match take(us, text) {
        Ok(taken) => {
            let length = replies::confirm(us, &taken, reply);
            Ok(Turned {
                entry: taken.entry,
                given: Given::Done {
                    length,
                    told: taken.told,
                },
            })
        }
        Err(Fault::Refused(refusal)) => Err(refusal),
        Err(Fault::Error { letters, counts }) => {
            let length = replies::complain(us, letters, counts, reply);
            Ok(Turned {
                entry: *e,
                given: Given::Complaint { letters, length },
            })
        }
    }
}
