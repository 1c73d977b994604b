// A message read and written anew from its parts.
use crate::operation::hex;
use fields::Kd;
use messages::{Address, Counts};
use octets::Span;
use reader::{Esm, Ksm, Message};
use writer::{Key, Vector};

// A name filled up with blanks, or blanks where there is none.
fn name(text: &[u8], span: Option<Span>) -> [u8; 16] {
    let mut name = [b' '; 16];
    if let Some(span) = span {
        octets::copy(&mut name, octets::part(text, span));
    }
    name
}

// A KD's key as it stands, with its names.
fn key(text: &[u8], kd: Kd) -> Key {
    Key {
        sealed: kd.key,
        p: kd.p,
        idk1: name(text, kd.idk1),
        idk2: name(text, kd.idk2),
    }
}

// The IV by its letter; one of fewer than 16 digits is none.
fn vector(iv: &[u8]) -> Option<Vector> {
    let value = hex(iv.get(1..17)?);
    Some(if iv[0] == b'E' {
        Vector::Enciphered(value)
    } else {
        Vector::Plain(value)
    })
}

// The digits of a date.
fn date(edk: &[u8]) -> [u8; 12] {
    let mut date = [b'0'; 12];
    octets::copy(&mut date, edk);
    date
}

// What a KSM says, as its writer takes it.
fn said(text: &[u8], m: &Ksm) -> messages::Ksm {
    messages::Ksm {
        nos: m.nos,
        first: key(text, m.first),
        second: m.second.map(|kd| key(text, kd)),
        vector: m.iv.and_then(|iv| vector(octets::part(text, iv))),
        edk: m.edk.map(|edk| date(octets::part(text, edk))),
        ctp: m.ctp.value,
    }
}

// CTP and CTR where there are both.
fn counts(m: &Esm) -> Option<Counts> {
    Some(Counts {
        ctp: m.ctp?.value,
        ctr: m.ctr?.value,
    })
}

// The message of a text into the reply, its MAC under the key: how many bytes.
pub(crate) fn anew(reply: &mut [u8], text: &[u8], mac_key: u64) -> Option<usize> {
    let message = reader::read(text)?;
    let head = message.head();
    let to = Address {
        rcv: octets::part(text, head.rcv),
        org: octets::part(text, head.org),
    };
    match &message {
        Message::Rsi(m) => messages::write_rsi(reply, to, m.service),
        Message::Ksm(m) => messages::write_ksm(reply, to, &said(text, m), mac_key),
        Message::Rsm(_) => messages::write_rsm(reply, to, mac_key),
        Message::Esm(m) => messages::write_esm(reply, to, m.erf.value, counts(m)),
        Message::Option(_) => None,
    }
}
