// F, M and P of a KSM, all judged, and what an accepted one tells: IV and date.
ghost use Rattle.std.specs.Prelude.{◌≡◌};
ghost use Rattle.keying.specs.Keys.{listed};
ghost use Rattle.calls.specs.Receive as steps;
ghost use Rattle.receiving.specs.Stages as stages;

use crate::fault::Fault;
use calls::{Date, letters};
use fields::Numeral;
use keying::DataKeys;
use messages::Counts;
use outcome::Told;
use partner::{Entry, KeySet};
use reader::Ksm;

// The value of an IV: after P as it stands, after E deciphered; none where it is not E or P and 16 hex digits.
#[inline(never)]
fn iv_value(keys: DataKeys, w: &[u8]) -> Option<u64>
    ensures { result ≡ stages.iv_value (listed keys) w.now }
{
    let (kind, digits) = w.split_first()?;
    let value = fields::block(digits)?;
    match *kind {
        b'P' => Some(value),
        b'E' => Some(sealing::reveal(keys, value)),
        _ => None,
    }
}

// M: whether the MAC differs.
pub(crate) fn bad_mac(keys: DataKeys, text: &[u8], m: Numeral) -> bool
    ensures { result ≡ stages.bad_mac (listed keys) text.now m }
{
    let covered = octets::part(text, reader::covered(m.span));
    u64::from(sealing::mac(sealing::mac_key(keys), covered)) != m.value
}

// P: whether the count is below the expected one, or the last.
#[tactic(auto, unfolding(calls::specs::Receive::bad_count))]
fn bad_count(expected: u32, count: u64) -> bool
    ensures { result ≡ steps.bad_count expected count }
{
    count < u64::from(expected) || count == u64::from(partner::LIMIT)
}

// A letter where its error holds.
fn letter(holds: bool, bit: u64) -> u64
    ensures { result ≡ steps.when holds bit }
{
    if holds { bit } else { 0 }
}

// The date of an EDK; none where it is no date.
#[tactic(auto, using(crate::proofs::Dates::date_length))]
fn date_of(w: &[u8]) -> Option<Date>
    ensures { result ≡ stages.date_value w.now }
{
    if !dates::is_date(w) {
        return None;
    }
    let mut digits = [0; 12];
    digits.copy_from_slice(w);
    Some(Date { digits })
}

// F: whether an IV that is there has no value, or an EDK that is there is no date.
fn bad_format(m: &Ksm, iv: Option<u64>, date: Option<Date>) -> bool
    ensures { result ≡ stages.bad_format m.now iv date }
{
    m.iv.is_some() && iv.is_none() || m.edk.is_some() && date.is_none()
}

// All of F, M and P that hold, with P the counts: ours and that received.
fn faults(e: &Entry, m: &Ksm, format: bool, mac: bool) -> Result<(), Fault>
    ensures { result ≡ stages.faults e.now m.now format mac }
{
    let expected = e.receiving.expected;
    let count = m.ctp.value;
    let late = bad_count(expected, count);
    let letters = letter(format, letters::F) | letter(mac, letters::M) | letter(late, letters::P);
    if letters == 0 {
        return Ok(());
    }
    let counts = late.then_some(Counts {
        ctp: u64::from(expected),
        ctr: count,
    });
    Err(Fault::Error { letters, counts })
}

// F, M and P are all judged; where none holds, IV and date are told.
#[tactic(auto, unfolding(crate::specs::Stages::judged))]
pub(crate) fn judge(e: &Entry, set: KeySet, text: &[u8], m: &Ksm) -> Result<Told, Fault>
    ensures { result ≡ stages.judged e.now set text.now m.now }
{
    let keys = partner::data_keys(set);
    let iv = m
        .iv
        .and_then(|span| iv_value(keys, octets::part(text, span)));
    let date = m.edk.and_then(|span| date_of(octets::part(text, span)));
    faults(e, m, bad_format(m, iv, date), bad_mac(keys, text, m.mac))?;
    Ok(Told::Keys { iv, date })
}
