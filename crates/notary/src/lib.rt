// Working keys: the top key offset by a message's count, or the notarizing key of its originator, its receiver and its count.
#![tactic(auto)]

ghost use Rattle.std.specs.Prelude.{◌≡◌, ◌≤◌};
ghost use Rattle.octets.specs.Number.{number};
ghost use Rattle.keying.specs.Working as working;

use keying::Top;

// One above the right 32 bits.
const HALF: u64 = 1 << 32;

// Eight characters of an identity from a place on, the identity replicated as often as necessary, as a number.
#[tactic(auto, using(keying::proofs::Characters::none_to_repeat))]
fn eight(identity: &[u8], at: usize) -> u64
    requires { at ≤ 8 }
    ensures { result ≡ number (working.characters 8 at identity.now) }
{
    if identity.is_empty() {
        return 0;
    }
    let mut x = 0;
    for i in 0..8 {
        x = (x << 8) + identity[(at + i) % identity.len()] as u64;
    }
    x
}

// A half of the notary seal: the second half of one identity enciphered under the key and the first half of the other, the
// characters one bit to the left.
#[tactic(auto, unfolding(keying::specs::Working::add_characters, keying::specs::Working::first_half, keying::specs::Working::second_half, keying::specs::Working::notary))]
fn notary(key: u64, from: &[u8], to: &[u8]) -> u64
    ensures { result ≡ working.notary key from.now to.now }
{
    cipher::encipher(key ^ (eight(from, 0) << 1), eight(to, 8))
}

// The notarizing key: of a single key the left 32 bits of one half of the seal and the right 32 bits of the other are added.
#[tactic(auto, unfolding(keying::specs::Working::offset, keying::specs::Working::notarizing))]
fn notarizing(top: Top, org: &[u8], rcv: &[u8], count: u64) -> Top
    ensures { result ≡ working.notarizing org.now rcv.now top count }
{
    match top {
        Top::Single(key) => {
            let l = notary(key, org, rcv);
            let r = notary(key, rcv, org);
            Top::Single(key ^ ((l / HALF * HALF + r % HALF) ^ count))
        }
        Top::Pair(left, right) => {
            let l = notary(right, org, rcv);
            let r = notary(left, rcv, org);
            Top::Pair(left ^ (l ^ count), right ^ (r ^ count))
        }
    }
}

// The key that a message's data keys go under: its count is added to both halves of a pair.
#[tactic(auto, unfolding(keying::specs::Working::offset, keying::specs::Working::working))]
pub fn working(notarized: bool, org: &[u8], rcv: &[u8], top: Top, count: u64) -> Top
    ensures { result ≡ working.working notarized org.now rcv.now top count }
{
    if notarized {
        return notarizing(top, org, rcv, count);
    }
    match top {
        Top::Single(key) => Top::Single(key ^ count),
        Top::Pair(left, right) => Top::Pair(left ^ count, right ^ count),
    }
}
