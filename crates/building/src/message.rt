// The messages that are built: their parts, and the parts written to the reply buffer.
ghost use Rattle.std.specs.Prelude.{◌≡◌, false, ◌≤◌, ◌<◌, length};
ghost use Rattle.octets.specs.Part.{bare};
ghost use Rattle.calls.specs.Build as building;
ghost use Rattle.building.specs.Parts as parts;

use crate::request::{wants_idk1, wants_idk2, wants_p};
use calls::{KeyRequest, Request};
use keying::Blocks;
use messages::{Address, Ksm};
use outcome::Parties;
use partner::{DataKey, Entry, KeySet, Name};
use writer::{Key, Vector};

// A name where it is asked for, else blanks.
fn written(name: &Name, asked: bool) -> [u8; 16]
    ensures { result ≡ parts.name_written asked name.now }
{
    if asked { name.bytes } else { [b' '; 16] }
}

// An outgoing key, named by the IDK1 written.
fn outgoing_key(k: &KeyRequest) -> DataKey
    ensures { result ≡ building.outgoing_key k.now }
{
    let name: &[u8] = if wants_idk1(k) {
        octets::bare(&k.name.bytes)
    } else {
        b""
    };
    DataKey {
        key: k.key,
        name: partner::name_of(name),
    }
}

// The outgoing keys of a request.
#[tactic(auto, using(crate::proofs::Chosen::choices), unfolding(calls::specs::Build::outgoing_of))]
pub(crate) fn outgoing(q: &Request) -> KeySet
    ensures { result ≡ building.outgoing_of q.now }
{
    let first = outgoing_key(&q.first);
    if q.count == 2 {
        partner::two_keys(first, outgoing_key(&q.second))
    } else {
        partner::one_key(first)
    }
}

// The keys of a request enciphered under the working key of the next send count, plain or notarized from us to the partner.
fn sealed_for(us: Parties, q: &Request) -> Blocks
    ensures { result ≡ parts.sealed_for us.entry.own.now us.entry.e.now q.now }
{
    let e = us.e;
    sealing::seal(
        notary::working(
            q.notarized == 1,
            us.own,
            octets::bare(&e.identity.bytes),
            partner::top_of(e.top),
            e.sending.next as u64,
        ),
        Blocks {
            first: q.first.key,
            second: (q.count == 2).then_some(q.second.key),
        },
    )
}

// A key as it is written: enciphered so, marked P and with the names asked for, IDK2 the entry's.
fn key_as(e: &Entry, k: &KeyRequest, sealed: u64) -> Key
    ensures { result ≡ parts.key_as e.now k.now sealed }
{
    Key {
        sealed,
        p: wants_p(k),
        idk1: written(&k.name, wants_idk1(k)),
        idk2: written(&e.top.name, wants_idk2(k)),
    }
}

// The IV: its value, or its value enciphered by the last of the keys.
fn vector(q: &Request) -> Option<Vector>
    ensures { result ≡ parts.vector_for q.now }
{
    match q.kind {
        1 => Some(Vector::Plain(q.iv)),
        2 => Some(Vector::Enciphered(sealing::conceal(partner::data_keys(outgoing(q)), q.iv))),
        _ => None,
    }
}

// What the KSM of a request says, with the next send count.
#[tactic(auto, using(crate::proofs::Chosen::choices), unfolding(keying::specs::Keys::each))]
fn ksm_for(us: Parties, q: &Request) -> Ksm
    ensures { result ≡ parts.ksm_for us.entry.own.now us.entry.e.now q.now }
{
    let e = us.e;
    let sealed = sealed_for(us, q);
    Ksm {
        nos: q.notarized == 1,
        first: key_as(e, &q.first, sealed.first),
        second: sealed.second.map(|block| key_as(e, &q.second, block)),
        vector: vector(q),
        edk: (q.dated == 1).then_some(q.date.digits),
        ctp: e.sending.next as u64,
    }
}

// To the partner, from us. Stands in `receiving` too: `outcome`, on which both stand, knows no messages, and has no other need of them.
fn to_partner(us: Parties) -> Address
    ensures rcv { result.rcv.now ≡ bare us.entry.e.now.identity.bytes }
    ensures org { result.org.now ≡ us.entry.own.now }
{
    Address {
        rcv: octets::bare(&us.e.identity.bytes),
        org: us.own,
    }
}

// The room of a lent reply is asked for twice: what writes is lent the buffer itself, by the project's rule.
// The KSM of a good request over the front of the reply buffer, with the next send count; its length.
#[tactic(auto, using(crate::proofs::Wording::ksm_wrote))]
pub(crate) fn write(us: Parties, q: &Request, reply: &mut [u8]) -> usize
    requires roomy { 256 ≤ length reply.old }
    requires formed { building.malformed q.now ≡ false }
    ensures value { result ≡ length (building.ksm_text us.entry.own.now us.entry.e.now q.now) }
    ensures reply_after { reply.new ≡ parts.fronted (building.ksm_text us.entry.own.now us.entry.e.now q.now) reply.old }
{
    let mac_key = sealing::mac_key(partner::data_keys(outgoing(q)));
    let ksm = ksm_for(us, q);
    messages::write_ksm(reply, to_partner(us), &ksm, mac_key).unwrap_or(0)
}

// The RSI for a service over the front of the reply buffer; its length.
#[tactic(auto, using(crate::proofs::Wording::rsi_wrote))]
pub(crate) fn write_rsi(us: Parties, service: u64, reply: &mut [u8]) -> usize
    requires roomy { 256 ≤ length reply.old }
    requires service_bound { service < 12 }
    ensures value { result ≡ length (parts.rsi_text us.entry.own.now us.entry.e.now service) }
    ensures reply_after { reply.new ≡ parts.fronted (parts.rsi_text us.entry.own.now us.entry.e.now service) reply.old }
{
    messages::write_rsi(reply, to_partner(us), service).unwrap_or(0)
}
