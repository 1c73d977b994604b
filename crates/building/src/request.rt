// What a request asks for, and whether it is one of document 01.
ghost use Rattle.std.specs.Prelude.{◌≡◌};
ghost use Rattle.calls.specs.Words.{any};
ghost use Rattle.calls.specs.Build as building;

use calls::{KeyRequest, Request};

// Whether a key is to be marked P.
pub(crate) fn wants_p(k: &KeyRequest) -> bool
    ensures { result ≡ building.wants_p k.now }
{
    k.flags % 2 == 1
}

// Whether its IDK1 is written.
pub(crate) fn wants_idk1(k: &KeyRequest) -> bool
    ensures { result ≡ building.wants_idk1 k.now }
{
    k.flags / 2 % 2 == 1
}

// Whether its IDK2 is written.
pub(crate) fn wants_idk2(k: &KeyRequest) -> bool
    ensures { result ≡ building.wants_idk2 k.now }
{
    k.flags / 4 % 2 == 1
}

// Whether a key is to be marked P and is not of odd parity.
#[tactic(auto, unfolding(calls::specs::Build::not_odd))]
fn not_odd(k: &KeyRequest) -> bool
    ensures { result ≡ building.not_odd k.now }
{
    wants_p(k) && !sealing::odd(k.key)
}

// Whether a used key is to be marked P and is not of odd parity; of more than two none is used.
#[tactic(auto, using(crate::proofs::Chosen::choices), unfolding(calls::specs::Build::used, calls::specs::Words::any))]
pub(crate) fn any_not_odd(q: &Request) -> bool
    ensures { result ≡ any building.not_odd (building.used q.now) }
{
    match q.count {
        1 => not_odd(&q.first),
        2 => not_odd(&q.first) || not_odd(&q.second),
        _ => false,
    }
}

// Whether a key has a bad flag, or a bad name that would be written.
#[tactic(auto, unfolding(calls::specs::Build::bad_key))]
fn bad_key(k: &KeyRequest) -> bool
    ensures { result ≡ building.bad_key k.now }
{
    8 <= k.flags || wants_idk1(k) && !rules::is_filled(&k.name.bytes)
}

// Whether there is no key, more than two, two equal in all 64 bits, a bad name or a bad flag.
#[tactic(auto, using(crate::proofs::Chosen::choices), unfolding(calls::specs::Build::used, calls::specs::Build::bad_keys))]
fn bad_keys(q: &Request) -> bool
    ensures { result ≡ building.bad_keys (building.used q.now) }
{
    match q.count {
        1 => bad_key(&q.first),
        2 => q.first.key == q.second.key || bad_key(&q.first) || bad_key(&q.second),
        _ => true,
    }
}

// Whether a field of the request is malformed: its keys, the IV's kind, the flags of date and notarization, the date.
#[tactic(auto, unfolding(calls::specs::Build::malformed))]
pub(crate) fn malformed(q: &Request) -> bool
    ensures { result ≡ building.malformed q.now }
{
    bad_keys(q)
        || 3 <= q.kind
        || 2 <= q.dated
        || 2 <= q.notarized
        || q.dated == 1 && !dates::is_date(&q.date.digits)
}
