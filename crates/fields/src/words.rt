// What the whole contents of a field stand for: numbers, services, classes, letters.
ghost use Rattle.std.specs.Prelude.{◌≡◌, true, ◌≤◌, option_map};
ghost use Rattle.std.specs.List.{position};
ghost use Rattle.octets.specs.Text as texts;
ghost use Rattle.csm.specs.Format.{value};
ghost use Rattle.csm.specs.Fields as csm;
ghost use Rattle.fields.specs.Seen.{class_of};

use super::Class;

// The value of a digit.
fn digit_value(b: u8) -> u64
    ensures { result ≡ csm.digit_value b }
{
    if b < b'A' {
        b.saturating_sub(b'0') as u64
    } else {
        (b - b'A') as u64 + 10
    }
}

// The number of at most 16 digits.
pub(crate) fn numeral(base: u64, digits: &[u8]) -> u64
    requires base_bound { base ≤ 16 }
    requires digits_value { texts.is_run 70 0 16 digits.now ≡ true }
    ensures { result ≡ csm.numeral base 0 digits.now }
{
    let mut n = 0;
    for b in digits {
        n = base * n + digit_value(*b);
    }
    n
}

// The number of so many hex digits.
pub(crate) fn hex(w: &[u8], digits: usize) -> Option<u64>
    requires { digits ≤ 16 }
    ensures { result ≡ value (csm.hex digits) w.now }
{
    if !octets::is_run(w, b'F', digits, digits) {
        return None;
    }
    Some(numeral(16, w))
}

// The number of sixteen hex digits: a block of the cipher.
pub fn block(w: &[u8]) -> Option<u64>
    ensures { result ≡ value (csm.hex 16) w.now }
{
    hex(w, 16)
}

// A count: 1 to 8 digits, the first of them no zero.
pub(crate) fn count(w: &[u8]) -> Option<u64>
    ensures { result ≡ value csm.count w.now }
{
    if !octets::is_run(w, 0, 1, 8) || w[0] == b'0' {
        return None;
    }
    Some(numeral(10, w))
}

// The place of w among the texts of a table.
fn place(table: &[&[u8]], w: &[u8]) -> Option<usize>
    ensures { result ≡ position (λ t. texts.same t.now w.now) table.now }
{
    table.iter().position(|text| octets::same(text, w))
}

// The twelve contents of SVR.
const SERVICES: [&[u8]; 12] = [
    b"",
    b"IV",
    b"KD",
    b"KD.IV",
    b"KK",
    b"KK.IV",
    b"KK.KD",
    b"KK.KD.IV",
    b"*KK",
    b"*KK.IV",
    b"*KK.KD",
    b"*KK.KD.IV",
];

// A service, by its place among the twelve contents of SVR.
pub fn service(w: &[u8]) -> Option<u64>
    ensures { result ≡ value csm.svr w.now }
{
    let k = place(&SERVICES, w)?;
    Some(k as u64)
}

// The class that w names.
pub(crate) fn class(w: &[u8]) -> Option<Class>
    ensures { result ≡ option_map class_of (value csm.mcl w.now) }
{
    let names: [&[u8]; 8] = [
        b"RSI", b"KSM", b"RSM", b"ESM", b"DSM", b"ERS", b"RFS", b"RTR",
    ];
    let classes = [
        Class::Rsi,
        Class::Ksm,
        Class::Rsm,
        Class::Esm,
        Class::Dsm,
        Class::Ers,
        Class::Rfs,
        Class::Rtr,
    ];
    let k = place(&names, w)?;
    Some(classes[k])
}

// The letters of an ERF, in alphabetical order, as bits, A the lowest.
pub(crate) fn letters(w: &[u8]) -> Option<u64>
    ensures { result ≡ value csm.erf w.now }
{
    let mut value = 0;
    let mut rest = w;
    for (k, letter) in b"ABFIKMOPU".iter().enumerate() {
        if let Some(behind) = rest.strip_prefix(&[*letter]) {
            value += 1 << k;
            rest = behind;
        }
    }
    if w.is_empty() || !rest.is_empty() {
        return None;
    }
    Some(value)
}
