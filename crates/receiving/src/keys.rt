// The keys of a KSM: I and K judged, the keys deciphered, and the set that they form with their names.
ghost use Rattle.std.specs.Prelude.{◌≡◌, option_map};
ghost use Rattle.calls.specs.Words.{any};
ghost use Rattle.calls.specs.Receive as steps;
ghost use Rattle.receiving.specs.Texts as texts;
ghost use Rattle.receiving.specs.Stages as stages;

use crate::fault::Fault;
use calls::letters;
use fields::Kd;
use keying::{Blocks, Top};
use outcome::Parties;
use partner::{DataKey, Entry, KeySet};
use reader::Ksm;

// The key name in force for a KD: its own IDK2, or without one the name in the table entry.
pub fn name_in_force<'a>(idk2: Option<&'a [u8]>, name: &'a [u8]) -> &'a [u8]
    ensures { result.now ≡ stages.name_in_force (option_map (λ w. w.now) idk2.entry) name.now }
{
    idk2.unwrap_or(name)
}

// I: whether the name in force for a KD is not the entry's name.
#[tactic(auto, unfolding(calls::specs::Receive::foreign))]
fn foreign(e: &Entry, text: &[u8], kd: &Kd) -> bool
    ensures { result ≡ steps.foreign e.now (texts.kd_in text.now kd.now) }
{
    let name = octets::bare(&e.top.name.bytes);
    let idk2 = kd.idk2.map(|span| octets::part(text, span));
    !octets::same(name_in_force(idk2, name), name)
}

// I: whether that of any KD is not.
#[tactic(auto, unfolding(calls::specs::Words::any, crate::specs::Texts::ksm_in))]
fn any_foreign(e: &Entry, text: &[u8], m: &Ksm) -> bool
    ensures { result ≡ any (steps.foreign e.now) (steps.kds (texts.ksm_in m.now text.now)) }
{
    foreign(e, text, &m.first) || m.second.is_some_and(|kd| foreign(e, text, &kd))
}

// The message's working key, plain or notarized from the partner to us.
fn working_key(us: Parties, m: &Ksm) -> Top
    ensures { result ≡ stages.working_key us.entry.own.now us.entry.e.now m.now }
{
    notary::working(
        m.nos,
        octets::bare(&us.e.identity.bytes),
        us.own,
        partner::top_of(us.e.top),
        m.ctp.value,
    )
}

// A deciphered key under the name that its KD gives it; K where it is marked P and not of odd parity.
fn data_key(text: &[u8], kd: &Kd, key: u64) -> Result<DataKey, Fault>
    ensures { result ≡ stages.data_key text.now kd.now key }
{
    if kd.p && !sealing::odd(key) {
        return Err(Fault::alone(letters::K));
    }
    let name = kd.idk1.map_or(&[][..], |span| octets::part(text, span));
    Ok(DataKey {
        key,
        name: partner::name_of(name),
    })
}

// The set that they form; K alone.
#[tactic(auto, unfolding(crate::specs::Stages::key_set))]
fn key_set(text: &[u8], m: &Ksm, plain: Blocks) -> Result<KeySet, Fault>
    ensures { result ≡ stages.key_set text.now m.now plain }
{
    let first = data_key(text, &m.first, plain.first)?;
    let Some((kd, key)) = m.second.zip(plain.second) else {
        return Ok(partner::one_key(first));
    };
    let second = data_key(text, &kd, key)?;
    Ok(partner::two_keys(first, second))
}

// The keys deciphered under the message's working key, with their names: I alone, then K alone.
#[tactic(auto, unfolding(crate::specs::Stages::opened))]
pub(crate) fn open_keys(us: Parties, text: &[u8], m: &Ksm) -> Result<KeySet, Fault>
    ensures { result ≡ stages.opened us.entry.own.now us.entry.e.now text.now m.now }
{
    if any_foreign(us.e, text, m) {
        return Err(Fault::alone(letters::I));
    }
    let sealed = Blocks {
        first: m.first.key,
        second: m.second.map(|kd| kd.key),
    };
    key_set(text, m, sealing::unseal(working_key(us, m), sealed))
}
