// What the fields' writers are made of: digits, letters, services.
ghost use Rattle.std.specs.Prelude.{◌≡◌, cond, [], ◌∷◌, ◌++◌, ◌≤◌, ◌<◌, ◌/◌, ◌%◌, ◌^◌, eqb, get_or};
ghost use Rattle.octets.specs.Text.{blank};
ghost use Rattle.csm.specs.Fields as fields;
ghost use Rattle.octets.specs.Wrote.{Wrote};

use crate::put_text;

// The digit of d: 0 to 9, then A to F.
fn digit(d: u64) -> u8
    requires { d < 16 }
    ensures { result ≡ fields.digit d }
{
    if d < 10 {
        b'0' + d as u8
    } else {
        b'A' + (d as u8 - 10)
    }
}

// The hex digit of x that has `place` digits behind it.
fn digit_at(x: u64, place: usize) -> u8
    requires { place < 16 }
    ensures { result ≡ fields.digit (x / 16 ^ place % 16) }
{
    digit((x >> (4 * place)) % 16)
}

// The k low hex digits of x, capitals.
// As octets::put_number does for bytes: a loop over a closure in place of both would be no shorter than the two.
fn put_hex(rest: &mut [u8], k: usize, x: u64) -> usize
    requires { k ≤ 16 }
    ensures { Wrote (fields.hex_text k x) rest.old rest.new result }
{
    let n = k.min(rest.len());
    for i in 0..n {
        rest[i] = digit_at(x, k - 1 - i);
    }
    n
}

// Four hex digits and a blank.
pub(crate) fn put_half(rest: &mut [u8], x: u64) -> usize
    ensures { Wrote (fields.hex_text 4 x ++ blank ∷ []) rest.old rest.new result }
{
    let a = put_hex(rest, 4, x);
    a + put_text(&mut rest[a..], b" ")
}

// A text and a block of 64 bits in 16 hex digits.
pub(crate) fn put_block(rest: &mut [u8], front: &[u8], x: u64) -> usize
    ensures { Wrote (front.now ++ fields.hex_text 16 x) rest.old rest.new result }
{
    let a = put_text(rest, front);
    a + put_hex(&mut rest[a..], 16, x)
}

// The same and a blank.
pub(crate) fn put_vector(rest: &mut [u8], front: &[u8], x: u64) -> usize
    ensures { Wrote (front.now ++ (fields.hex_text 16 x ++ blank ∷ [])) rest.old rest.new result }
{
    let a = put_block(rest, front, x);
    a + put_text(&mut rest[a..], b" ")
}

// The number n in decimal, of at most eight digits, no leading zero.
pub(crate) fn put_decimal(rest: &mut [u8], n: u64) -> usize
    requires { n < 100_000_000 }
    ensures { Wrote (fields.decimal 7 n) rest.old rest.new result }
{
    if n < 10 {
        return octets::fill(rest, 1, digit(n));
    }
    let k = put_decimal(rest, n / 10);
    k + octets::fill(&mut rest[k..], 1, digit(n % 10))
}

// A letter, if the lowest bit of `left` is set.
fn put_letter(rest: &mut [u8], left: u64, letter: u8) -> usize
    ensures { Wrote (cond (eqb (left % 2) 1) (letter ∷ []) []) rest.old rest.new result }
{
    if left % 2 == 1 {
        octets::fill(rest, 1, letter)
    } else {
        0
    }
}

// The letters whose bits are set, in alphabetical order.
pub(crate) fn put_letters(rest: &mut [u8], letters: u64) -> usize
    ensures { Wrote (fields.letters_of fields.error_letters letters) rest.old rest.new result }
{
    let mut left = letters;
    let mut n = 0;
    for letter in b"ABFIKMOPU" {
        n += put_letter(&mut rest[n..], left, *letter);
        left /= 2;
    }
    n
}

// The services, in the order of their places.
static SERVICES: [&[u8]; 12] = [
    b"",
    b"IV",
    b"KD",
    b"KD.IV",
    b"KK",
    b"KK.IV",
    b"KK.KD",
    b"KK.KD.IV",
    b"*KK",
    b"*KK.IV",
    b"*KK.KD",
    b"*KK.KD.IV",
];

// A service's contents, by its place among the twelve.
pub(crate) fn put_service(rest: &mut [u8], service: u64) -> usize
    ensures { Wrote (get_or fields.services service []) rest.old rest.new result }
{
    if 12 <= service {
        return 0;
    }
    put_text(rest, SERVICES[service as usize])
}
