// The rows of fields that follow the head, each to the end of the text.
ghost use Rattle.std.specs.Prelude.{◌≡◌, drop};
ghost use Rattle.octets.specs.Text.{ascii, same};
ghost use Rattle.reader.specs.Stages as stages;

use super::{Esm, Head, Ksm, Message, Rsi, Rsm};

// Whether the text ends at `at` with its closing parenthesis.
fn closing(text: &[u8], at: usize) -> bool
    ensures { result ≡ same (drop at text.now) (ascii ")") }
{
    match text.get(at..) {
        Some(rest) => octets::same(rest, b")"),
        None => false,
    }
}

// An RSI's fields after its head: SVR and an optional EDC.
pub fn rsi_at(text: &[u8], at: usize, head: Head) -> Option<Message>
    ensures { result ≡ stages.rsi_body head at (drop at text.now) }
{
    let service = fields::service_field(text, at);
    let check = fields::check_field(text, service.next, b"EDC/");
    let svr = service.contents?;
    closing(text, check.next).then_some(Message::Rsi(Rsi {
        head,
        service: svr.value,
        svr: svr.span,
        edc: check.contents,
    }))
}

// An RSM's fields after its head: MAC.
pub fn rsm_at(text: &[u8], at: usize, head: Head) -> Option<Message>
    ensures { result ≡ stages.rsm_body head at (drop at text.now) }
{
    let check = fields::check_field(text, at, b"MAC/");
    let mac = check.contents?;
    closing(text, check.next).then_some(Message::Rsm(Rsm { head, mac }))
}

// Whether CTP and CTR are both there, and ERF has a P; or neither, and it has none.
fn counts_with_p(erf: u64, ctp: bool, ctr: bool) -> bool
    ensures { result ≡ stages.agree erf ctp ctr }
{
    let p = erf / 128 % 2 == 1;
    ctp == p && ctr == p
}

// An ESM's fields after its head: CTP and CTR exactly with P, ERF and an optional EDC.
pub fn esm_at(text: &[u8], at: usize, head: Head) -> Option<Message>
    ensures { result ≡ stages.esm_body head at (drop at text.now) }
{
    let sent = fields::count_field(text, at, b"CTP/");
    let received = fields::count_field(text, sent.next, b"CTR/");
    let letters = fields::letters_field(text, received.next);
    let check = fields::check_field(text, letters.next, b"EDC/");
    let ctp = sent.contents;
    let ctr = received.contents;
    let erf = letters.contents?;
    if !closing(text, check.next) {
        return None;
    }
    counts_with_p(erf.value, ctp.is_some(), ctr.is_some()).then_some(Message::Esm(Esm {
        head,
        ctp,
        ctr,
        erf,
        edc: check.contents,
    }))
}

// A KSM's fields after its head: NOS or not, a KD, an optional second, IV and EDK, both optional, CTP and MAC.
pub fn ksm_at(text: &[u8], at: usize, head: Head) -> Option<Message>
    ensures { result ≡ stages.ksm_body head at (drop at text.now) }
{
    let nos = fields::run_field(text, at, b"NOS/", 0, 0, 0);
    let one = fields::key_field(text, nos.next);
    let two = fields::key_field(text, one.next);
    let iv = fields::run_field(text, two.next, b"IV/", b'Z', 1, 17);
    let edk = fields::run_field(text, iv.next, b"EDK/", 0, 12, 12);
    let count = fields::count_field(text, edk.next, b"CTP/");
    let check = fields::check_field(text, count.next, b"MAC/");
    let first = one.contents?;
    let ctp = count.contents?;
    let mac = check.contents?;
    closing(text, check.next).then_some(Message::Ksm(Ksm {
        head,
        nos: nos.contents.is_some(),
        first,
        second: two.contents,
        iv: iv.contents,
        edk: edk.contents,
        ctp,
        mac,
    }))
}
