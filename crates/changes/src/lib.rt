// The changes of an entry that the steps make.
#![tactic(auto)]

ghost use Rattle.std.specs.Prelude.{◌≡◌};
ghost use Rattle.partner.specs.Entry as entry;
ghost use Rattle.partner.specs.Changes as change;

use keying::Top;
use partner::{
    BROKEN, CONFIRMED, Entry, IDLE, KeySet, LIMIT, Name, PAIR, Receiving, SINGLE, Sending, TopKey,
    WAITING,
};

// One more, and no further than 99,999,999.
#[tactic(auto, unfolding(partner::specs::Entry::risen))]
fn risen(n: u32) -> u32
    ensures { result ≡ entry.risen n }
{
    n.saturating_add(1).min(LIMIT)
}

// The entry with its sending unit anew.
pub fn with_sending(e: Entry, sending: Sending) -> Entry
    ensures { result ≡ change.with_sending e sending }
{
    Entry { sending, ..e }
}

// The entry with its receiving unit anew.
pub fn with_receiving(e: Entry, receiving: Receiving) -> Entry
    ensures { result ≡ change.with_receiving e receiving }
{
    Entry { receiving, ..e }
}

// A top key as it is kept under a name: its form, the key or the two halves of a pair.
fn kept(name: Name, top: Top) -> TopKey
    ensures { result ≡ change.kept name top }
{
    match top {
        Top::Single(left) => TopKey {
            name,
            form: SINGLE,
            left,
            right: 0,
        },
        Top::Pair(left, right) => TopKey {
            name,
            form: PAIR,
            left,
            right,
        },
    }
}

// Loading sets both counts to 1, phase 0, no data keys.
#[tactic(auto, unfolding(partner::specs::Changes::loaded))]
pub fn loaded(identity: Name, name: Name, top: Top) -> Entry
    ensures { result ≡ change.loaded identity name top }
{
    Entry {
        identity,
        top: kept(name, top),
        sending: Sending {
            next: 1,
            phase: IDLE,
            outgoing: partner::no_keys(),
        },
        receiving: Receiving {
            expected: 1,
            incoming: partner::no_keys(),
        },
    }
}

// A KSM is accepted: the keys replace the incoming ones, expected becomes count + 1.
#[tactic(auto, unfolding(partner::specs::Changes::accepted))]
pub fn accepted(count: u32, keys: KeySet) -> Receiving
    ensures { result ≡ change.accepted count keys }
{
    Receiving {
        expected: risen(count),
        incoming: keys,
    }
}

// A KSM is built: the next send count rises by one, outgoing keys set, phase 1.
#[tactic(auto, unfolding(partner::specs::Changes::issued))]
pub fn issued(s: Sending, keys: KeySet) -> Sending
    ensures { result ≡ change.issued s keys }
{
    Sending {
        next: risen(s.next),
        phase: WAITING,
        outgoing: keys,
    }
}

// An RSM is taken: phase 2.
#[tactic(auto, unfolding(partner::specs::Changes::settled))]
pub fn settled(s: Sending) -> Sending
    ensures { result ≡ change.settled s }
{
    Sending {
        phase: CONFIRMED,
        ..s
    }
}

// Given up, or an ESM without counts: phase 3 and keys wiped.
#[tactic(auto, unfolding(partner::specs::Changes::given_up))]
pub fn given_up(s: Sending) -> Sending
    ensures { result ≡ change.given_up s }
{
    Sending {
        phase: BROKEN,
        outgoing: partner::no_keys(),
        ..s
    }
}

// An ESM with CTP x: besides, next send becomes the larger of itself and x.
#[tactic(auto, unfolding(partner::specs::Changes::given_up, partner::specs::Changes::failed))]
pub fn failed(s: Sending, x: u32) -> Sending
    ensures { result ≡ change.failed s x }
{
    Sending {
        next: s.next.max(x),
        ..given_up(s)
    }
}
