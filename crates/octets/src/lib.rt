// Leaves over lent bytes: compare, find, copy to the front of a lent rest, numbers high byte first; and the first test that
// holds.
#![tactic(auto)]

ghost use Rattle.std.specs.Prelude.{◌≡◌, ◌+◌, ◌/◌, ◌%◌, ◌^◌, ◌≤◌, min, length, drop};
ghost use Rattle.octets.specs.Text as text;
ghost use Rattle.octets.specs.Part as part;
ghost use Rattle.octets.specs.Number as numbers;
ghost use Rattle.octets.specs.Wrote.{Wrote};
ghost use Rattle.octets.specs.First as first;

// Whether the two are one text.
pub fn same(a: &[u8], b: &[u8]) -> bool
    ensures { result ≡ text.same a.now b.now }
{
    a == b
}

// Whether w stands in s from `at` on.
#[tactic(auto, using(crate::proofs::Library::starts_is, crate::proofs::Library::rest_from))]
pub fn starts(s: &[u8], at: usize, w: &[u8]) -> bool
    ensures { result ≡ text.starts w.now (drop at s.now) }
{
    s[at.min(s.len())..].starts_with(w)
}

// Whether b is a digit, or a capital up to top.
fn run_char(top: u8, b: u8) -> bool
    ensures { result ≡ text.run_char top b }
{
    b.is_ascii_digit() || (b'A'..=top).contains(&b)
}

// Whether s is low to high digits and capitals up to top.
pub fn is_run(s: &[u8], top: u8, low: usize, high: usize) -> bool
    ensures { result ≡ text.is_run top low high s.now }
{
    s.iter().all(|b| run_char(top, *b)) && (low..=high).contains(&s.len())
}

// Whether s is an identity or a key name.
pub fn is_name(s: &[u8]) -> bool
    ensures { result ≡ text.is_name s.now }
{
    is_run(s, b'Z', 1, 16)
}

// How many bytes stand in s before the first x: all of them where there is none.
#[tactic(auto, using(crate::proofs::Parting::before_fits))]
fn count_before(s: &[u8], x: u8) -> usize
    ensures value { result ≡ part.before x s.now }
    ensures within { result ≤ length s.now }
{
    s.iter().position(|b| *b == x).unwrap_or(s.len())
}

// Where the next x stands in s from `at` on: the end where there is none.
#[tactic(auto, using(crate::proofs::Library::rest_from))]
pub fn until(s: &[u8], at: usize, x: u8) -> usize
    ensures { result ≡ at + part.before x (drop at s.now) }
{
    at + count_before(&s[at.min(s.len())..], x)
}

// Where a part of a text stands, and how long it is.
#[derive(Clone, Copy)]
pub struct Span {
    pub at: usize,
    pub length: usize,
}

// The part of s that stands there, as far as s reaches.
#[tactic(auto, using(crate::proofs::Library::part_lent))]
pub fn part(s: &[u8], span: Span) -> &[u8]
    ensures { result.now ≡ part.part s.now span }
{
    let rest = &s[span.at.min(s.len())..];
    &rest[..span.length.min(rest.len())]
}

// What stands in s before the first blank.
pub fn bare(s: &[u8]) -> &[u8]
    ensures { result.now ≡ part.bare s.now }
{
    &s[..count_before(s, b' ')]
}

// As much of src as there is room for, over the front of rest; how many bytes that is.
#[tactic(auto, using(crate::proofs::Library::wrote_copied))]
pub fn copy(rest: &mut [u8], src: &[u8]) -> usize
    ensures { Wrote src.now rest.old rest.new result }
{
    let n = src.len().min(rest.len());
    rest[..n].copy_from_slice(&src[..n]);
    n
}

// The byte b, k times or as often as there is room for, over the front of rest; how many bytes that is.
pub fn fill(rest: &mut [u8], k: usize, b: u8) -> usize
    ensures { Wrote (numbers.copies k b) rest.old rest.new result }
{
    let n = k.min(rest.len());
    rest[..n].fill(b);
    n
}

// The number that the bytes of s are, the high byte first, as far as 64 bits hold it; eight bytes compile to one load.
pub fn number(s: &[u8]) -> u64
    ensures { result ≡ numbers.number s.now % 2 ^ 64 }
{
    match s.as_array() {
        Some(bytes) => u64::from_be_bytes(*bytes),
        None => s.iter().fold(0, |x, b| (x << 8) + *b as u64),
    }
}

// Whether s is the sixteen bytes of two numbers.
pub fn same_numbers(s: &[u8], first: u64, second: u64) -> bool
    ensures { result ≡ text.same s.now (numbers.of_numbers first second) }
{
    s.len() == 16 && number(&s[..8]) == first && number(&s[8..]) == second
}

// The byte of x that has `place` bytes behind it; by a shift, since for to_le_bytes the compiler lays x, maybe a key, on the stack.
#[tactic(auto, using(crate::proofs::Numbers::byte_shift, crate::proofs::Numbers::byte_beyond))]
fn byte_at(x: u64, place: usize) -> u8
    ensures { result ≡ x / 256 ^ place % 256 }
{
    if place < 8 {
        ((x >> (8 * place)) % 256) as u8
    } else {
        0
    }
}

// The k low bytes of x, the high one first, as many as there is room for, over the front of rest; how many that is.
pub fn put_number(rest: &mut [u8], k: usize, x: u64) -> usize
    ensures { Wrote (numbers.bytes k x) rest.old rest.new result }
{
    let n = k.min(rest.len());
    for i in 0..n {
        rest[i] = byte_at(x, k - 1 - i);
    }
    n
}

// The answer so far; where there is none yet and the test holds, that number: `rules::broken` promises a number of its list.
pub fn then(answer: u32, holds: bool, number: u32) -> u32
    ensures { result ≡ first.then answer holds number }
{
    if answer != 0 {
        answer
    } else if holds {
        number
    } else {
        0
    }
}
