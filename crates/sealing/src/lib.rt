// Keys and MACs: parity, sealing, the MAC, an IV's value.
#![tactic(auto)]

ghost use Rattle.std.specs.Prelude.{◌≡◌, cond, get_or};
ghost use Rattle.dea.specs.Dea as dea;
ghost use Rattle.keying.specs.Parity.{odd};
ghost use Rattle.keying.specs.Keys.{odd_top, seal, unseal, halves, order, each, listed};
ghost use Rattle.keying.specs.Mac.{mac_key, mac};
ghost use Rattle.keying.specs.Iv.{last_key, conceal, reveal};

use keying::{Blocks, DataKeys, Top};

// Odd parity: each of the key's eight bytes has an odd number of ones.
pub fn odd(key: u64) -> bool
    ensures { result ≡ odd key }
{
    key.to_be_bytes().iter().all(|b| b.count_ones() % 2 == 1)
}

// Odd parity of each half in use.
#[tactic(auto, unfolding(keying::specs::Keys::odd_top))]
pub fn odd_top(top: Top) -> bool
    ensures { result ≡ odd_top top }
{
    match top {
        Top::Single(key) => odd(key),
        Top::Pair(left, right) => odd(left) && odd(right),
    }
}

// A single key, or the left half of a pair.
fn left_half(key: Top) -> u64
    ensures { result ≡ get_or (halves key) 0 0 }
{
    match key {
        Top::Single(single) => single,
        Top::Pair(left, _) => left,
    }
}

// A schedule brought into its order: K1 first or, back, K16 first.
fn order(back: bool, ks: &mut [u64])
    ensures { ks.new ≡ order back ks.old }
{
    if back {
        ks.reverse();
    }
}

// A block through the halves of a pair, each by its schedule in its order: ede or ded.
fn three_steps(left: &[u64], right: &[u64], x: u64) -> u64
    ensures { result ≡ dea.cipher left.now (dea.cipher right.now (dea.cipher left.now x)) }
{
    cipher::encipher_with(
        left,
        cipher::encipher_with(right, cipher::encipher_with(left, x)),
    )
}

// Data keys under a working key or, back, from under it: each half is scheduled once for both.
// One function for both ways: with two callers it keeps its schedules out of their stack frames.
#[tactic(auto, using(keying::proofs::Laws::single_way, keying::proofs::Laws::pair_way), unfolding(keying::specs::Keys::each))]
fn steps(back: bool, key: Top, blocks: Blocks) -> Blocks
    ensures { result ≡ each (cond back (unseal key) (seal key)) blocks }
{
    let mut l = cipher::key_schedule(left_half(key));
    order(back, &mut l);
    match key {
        Top::Single(_) => Blocks {
            first: cipher::encipher_with(&l, blocks.first),
            second: blocks.second.map(|x| cipher::encipher_with(&l, x)),
        },
        Top::Pair(_, right) => {
            let mut r = cipher::key_schedule(right);
            order(!back, &mut r);
            Blocks {
                first: three_steps(&l, &r, blocks.first),
                second: blocks.second.map(|x| three_steps(&l, &r, x)),
            }
        }
    }
}

// Data keys under a working key.
pub fn seal(key: Top, plain: Blocks) -> Blocks
    ensures { result ≡ each (seal key) plain }
{
    steps(false, key, plain)
}

// Data keys from under a working key.
pub fn unseal(key: Top, sealed: Blocks) -> Blocks
    ensures { result ≡ each (unseal key) sealed }
{
    steps(true, key, sealed)
}

// The key of a MAC: the one data key, or the exclusive-or of the two.
#[tactic(auto, unfolding(keying::specs::Mac::mac_key))]
pub fn mac_key(keys: DataKeys) -> u64
    ensures { result ≡ mac_key (listed keys) }
{
    match keys {
        DataKeys::None => 0,
        DataKeys::One(key) => key,
        DataKeys::Two(first, second) => first ^ second,
    }
}

// The MAC of a text: the left 32 bits of its last block, chained from a zero start.
#[tactic(auto, unfolding(keying::specs::Mac::mac))]
pub fn mac(key: u64, text: &[u8]) -> u32
    ensures { result ≡ mac key text.now }
{
    let ks = cipher::key_schedule(key);
    (cipher::chain(&ks, 0, text) / 4294967296) as u32
}

// The key of an IV: the second data key if there are two.
#[tactic(auto, unfolding(keying::specs::Iv::last_key))]
fn last_key(keys: DataKeys) -> u64
    ensures { result ≡ last_key (listed keys) }
{
    match keys {
        DataKeys::None => 0,
        DataKeys::One(key) => key,
        DataKeys::Two(_, second) => second,
    }
}

// The value of an IV, enciphered.
#[tactic(auto, unfolding(keying::specs::Iv::conceal))]
pub fn conceal(keys: DataKeys, value: u64) -> u64
    ensures { result ≡ conceal (listed keys) value }
{
    cipher::encipher(last_key(keys), value)
}

// The value of an IV, deciphered.
#[tactic(auto, unfolding(keying::specs::Iv::reveal))]
pub fn reveal(keys: DataKeys, concealed: u64) -> u64
    ensures { result ≡ reveal (listed keys) concealed }
{
    cipher::decipher(last_key(keys), concealed)
}
