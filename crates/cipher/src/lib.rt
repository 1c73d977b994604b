// The Data Encryption Algorithm of FIPS 46.
#![tactic(auto)]

ghost use Rattle.std.specs.Prelude.{◌≡◌, List, [], map, reverse, ◌+◌, ◌-◌, ◌*◌, ◌/◌, ◌%◌, ◌^◌, ◌<◌, ◌≤◌, length, get_or, T};
ghost use Rattle.std.specs.Iterator.{IsFinite};
ghost use Rattle.std.specs.Iterator.Runs.{WholeRun};
ghost use Rattle.dea.specs.Tables.{IP, IP⁻¹, E, P, PC_1, PC_2, shifts, boxes as selections};
ghost use Rattle.dea.specs.Dea as dea;
ghost use Rattle.dea.specs.Chain.{first_block, chained};
ghost use Rattle.cipher.specs.Words.{names_bits, exchange};

mod tables;

// The bits of the n-bit block x that the table names, in its order.
#[tactic(auto, using(crate::proofs::Picks::named_at, crate::proofs::Picks::walk, crate::proofs::Picks::grows))]
fn pick(n: u32, table: &[u8], x: u64) -> u64
    requires { T (names_bits n table.now) × (n ≤ 64) × (length table.now ≤ 64) }
    ensures value { result ≡ dea.permute n table.now x }
    ensures fits { result < 2 ^ length table.now }
{
    let mut bits: u64 = 0;
    for t in table {
        bits = bits * 2 + (x >> (n - *t as u32)) % 2;
    }
    bits
}

// The E bit selection: eight blocks of six bits, each with its neighbours' nearest bits.
#[tactic(auto, using(crate::proofs::Substitution::expansion))]
fn expand(r: u32) -> u64
    ensures { result ≡ dea.permute 32 E r }
{
    let x = r as u64;
    let w = (x << 33) ^ ((x << 1) ^ (x >> 31));
    let mut bits: u64 = 0;
    for i in 0..8u32 {
        bits = (bits << 6) ^ ((w >> (28 - 4 * i)) % 64);
    }
    bits
}

// What selection function i, counted from 0, gives at six bits: its row, then its column.
#[tactic(auto, using(crate::proofs::Substitution::selected))]
fn select(i: usize, b: usize) -> u64
    requires { (i < 8) × (b < 64) }
    ensures value { result ≡ dea.select (get_or selections i []) b }
    ensures four_bits { result < 16 }
{
    let row = tables::BOXES[i * 4 + (b / 32 * 2 + b % 2)];
    let column = b / 2 % 16;
    (row >> (60 - 4 * column)) % 16
}

// The four bits that each selection function gives at its six bits of b.
#[tactic(auto, using(crate::proofs::Substitution::all_selected))]
fn substitute(b: u64) -> u64
    ensures { result ≡ dea.substitute b 0 selections }
{
    let mut bits: u64 = 0;
    for i in 0..8 {
        let six = (b >> (42 - 6 * i)) % 64;
        bits = bits * 16 + select(i, six as usize);
    }
    bits
}

// The cipher function f.
#[tactic(auto, unfolding(dea::specs::Tables::P, dea::specs::Dea::f))]
fn cipher_function(r: u32, k: u64) -> u32
    ensures { result ≡ dea.f r k }
{
    pick(32, &tables::P_TABLE, substitute(expand(r) ^ k)) as u32
}

// The bits of x under the mask m change places with those s further left.
#[tactic(auto, unfolding(crate::specs::Words::exchange))]
fn swap(x: u64, s: u32, m: u64) -> u64
    ensures { result ≡ exchange (s % 64) m x }
{
    let t = (x.wrapping_shr(s) ^ x) & m;
    x ^ (t ^ t.wrapping_shl(s))
}

// The initial permutation, by five exchanges.
#[tactic(auto, using(crate::proofs::Exchanges::initial))]
fn ip(x: u64) -> u64
    ensures { result ≡ dea.permute 64 IP x }
{
    tables::EXCHANGES
        .iter()
        .fold(x, |y, (s, m)| swap(y, *s, *m))
}

// Its inverse, by the same exchanges from the last to the first.
#[tactic(auto, using(crate::proofs::Exchanges::inverse))]
fn ip_inverse(x: u64) -> u64
    ensures { result ≡ dea.permute 64 IP⁻¹ x }
{
    tables::EXCHANGES
        .iter()
        .rev()
        .fold(x, |y, (s, m)| swap(y, *s, *m))
}

// Permuted choice 1.
#[tactic(auto, unfolding(dea::specs::Tables::PC_1))]
fn pc1(x: u64) -> u64
    ensures value { result ≡ dea.permute 64 PC_1 x }
    ensures fits { result < 2 ^ 56 }
{
    pick(64, &tables::PC1_TABLE, x)
}

// One or two left shifts of a block of 28 bits.
#[tactic(auto, using(crate::proofs::Walks::shift_is, crate::proofs::Walks::shift_lt))]
fn left_shift(s: u32, c: u64) -> u64
    requires { (s ≤ 2) × (c < 2 ^ 28) }
    ensures value { result ≡ dea.left_shift s c }
    ensures fits { result < 2 ^ 28 }
{
    (c << s) % 268435456 + (c >> (28 - s))
}

// The key schedule: K1 to K16. Permuted choice 2 walks over a copy of its table, which is faster than the table itself.
#[tactic(auto, unfolding(dea::specs::Dea::schedule, dea::specs::Tables::shifts, dea::specs::Tables::PC_2))]
pub fn key_schedule(key: u64) -> [u64; 16]
    ensures { result ≡ dea.schedule key }
{
    let cd = pc1(key);
    let mut c = cd / 268435456;
    let mut d = cd % 268435456;
    let table = tables::PC2_TABLE;
    let mut ks = [0; 16];
    for (i, s) in tables::SHIFTS.iter().enumerate() {
        c = left_shift(*s, c);
        d = left_shift(*s, d);
        ks[i] = pick(56, &table, c * 268435456 + d);
    }
    ks
}

// The preoutput block: R16, then L16.
fn preoutput(l: u32, r: u32) -> u64
    ensures { result ≡ dea.iterate [] l r }
{
    (r as u64) * 4294967296 + (l as u64)
}

// A block through the iterations of a schedule, whose blocks come in the order of ks.
fn cipher<'a, I: Iterator<Item = &'a u64>>(ks: I, x: u64) -> u64
    requires can { I.can_next ks }
    requires finite { IsFinite (I.remaining ks) }
    ensures { WholeRun I.next_gives ks (λ p. result ≡ dea.cipher (map (λ k. k.now) p.items) x) }
{
    let b = ip(x);
    let halves = ((b / 4294967296) as u32, (b % 4294967296) as u32);
    let (l, r) = ks.fold(halves, |(l, r), k| (r, l ^ cipher_function(r, *k)));
    ip_inverse(preoutput(l, r))
}

// A block enciphered under a schedule that the caller keeps.
pub fn encipher_with(ks: &[u64], x: u64) -> u64
    ensures { result ≡ dea.cipher ks.now x }
{
    cipher(ks.iter(), x)
}

// A block deciphered under a schedule that the caller keeps.
pub fn decipher_with(ks: &[u64], x: u64) -> u64
    ensures { result ≡ dea.cipher (reverse ks.now) x }
{
    cipher(ks.iter().rev(), x)
}

// A block enciphered under a key.
#[tactic(auto, unfolding(dea::specs::Dea::encipher))]
pub fn encipher(key: u64, x: u64) -> u64
    ensures { result ≡ dea.encipher key x }
{
    encipher_with(&key_schedule(key), x)
}

// A block deciphered under a key.
#[tactic(auto, unfolding(dea::specs::Dea::decipher))]
pub fn decipher(key: u64, x: u64) -> u64
    ensures { result ≡ dea.decipher key x }
{
    decipher_with(&key_schedule(key), x)
}

// The bytes of a text up to eight, zero bytes filling the block.
#[tactic(auto, using(dea::proofs::Blocks::block_of))]
fn block(s: &[u8]) -> u64
    requires { length s.now ≤ 8 }
    ensures { result ≡ first_block s.now }
{
    let mut bytes = [0u8; 8];
    bytes[..s.len()].copy_from_slice(s);
    u64::from_be_bytes(bytes)
}

// Cipher block chaining over a text, under a schedule that the caller keeps: the last output.
#[tactic(auto, using(dea::proofs::Blocks::next_block, dea::proofs::Blocks::no_block))]
pub fn chain(ks: &[u64], start: u64, text: &[u8]) -> u64
    ensures { result ≡ chained ks.now start text.now }
{
    let mut output = start;
    for bytes in text.chunks(8) {
        output = encipher_with(ks, output ^ block(bytes));
    }
    output
}
