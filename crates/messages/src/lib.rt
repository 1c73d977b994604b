// Messages into a lent reply buffer: RSI, KSM, RSM and ESM from their parts. Each writer answers the length of the message,
// or that nothing was written: the room is under 256 or a part is not legal.
#![tactic(auto)]

ghost use Rattle.std.specs.Prelude.{◌≡◌};
ghost use Rattle.messages.specs.Readings as readings;
ghost use Rattle.messages.specs.Answers as answers;

use writer::{Key, Vector};

mod legal;
mod whole;

// Whom a message goes to, and whom it comes from.
#[derive(Clone, Copy)]
pub struct Address<'a> {
    pub rcv: &'a [u8],
    pub org: &'a [u8],
}

// CTP and CTR of an ESM.
#[derive(Clone, Copy)]
pub struct Counts {
    pub ctp: u64,
    pub ctr: u64,
}

// What a KSM says: whether its keys are notarized, its data key, the second one if there are two, the IV and the date if
// there are any, and the count.
#[derive(Clone, Copy)]
pub struct Ksm {
    pub nos: bool,
    pub first: Key,
    pub second: Option<Key>,
    pub vector: Option<Vector>,
    pub edk: Option<[u8; 12]>,
    pub ctp: u64,
}

// An RSI that asks for a service, by its place among the twelve contents of SVR.
#[tactic(auto, using(crate::proofs::Judging::written, crate::proofs::Bodies::rsi_legal), unfolding(crate::specs::Readings::rsi_reading))]
pub fn write_rsi(reply: &mut [u8], to: Address, service: u64) -> Option<usize>
    ensures value { result ≡ answers.answer (readings.rsi_reading to.entry.rcv.now to.entry.org.now service) reply.old }
    ensures reply_after { reply.new ≡ answers.buffer (readings.rsi_reading to.entry.rcv.now to.entry.org.now service) reply.old }
{
    if !to.is_legal(reply.len()) {
        return None;
    }
    if 12 <= service {
        return None;
    }
    Some(whole::put_rsi(reply, to, service))
}

// An RSM, its MAC under mac_key.
#[tactic(auto, using(crate::proofs::Judging::written, crate::proofs::Bodies::rsm_legal), unfolding(crate::specs::Readings::rsm_reading))]
pub fn write_rsm(reply: &mut [u8], to: Address, mac_key: u64) -> Option<usize>
    ensures value { result ≡ answers.answer (readings.rsm_reading to.entry.rcv.now to.entry.org.now mac_key) reply.old }
    ensures reply_after { reply.new ≡ answers.buffer (readings.rsm_reading to.entry.rcv.now to.entry.org.now mac_key) reply.old }
{
    if !to.is_legal(reply.len()) {
        return None;
    }
    Some(whole::put_rsm(reply, to, mac_key))
}

// An ESM of the letters whose bits are set, A the lowest, and the counts exactly with P.
#[tactic(auto, using(crate::proofs::Judging::written, crate::proofs::Bodies::esm_legal, crate::proofs::Judging::error_counts), unfolding(crate::specs::Readings::esm_reading))]
pub fn write_esm(
    reply: &mut [u8],
    to: Address,
    letters: u64,
    counts: Option<Counts>,
) -> Option<usize>
    ensures value { result ≡ answers.answer (readings.esm_reading to.entry.rcv.now to.entry.org.now letters counts) reply.old }
    ensures reply_after { reply.new ≡ answers.buffer (readings.esm_reading to.entry.rcv.now to.entry.org.now letters counts) reply.old }
{
    if !to.is_legal(reply.len()) {
        return None;
    }
    if !legal::is_error(letters, counts) {
        return None;
    }
    Some(whole::put_esm(reply, to, letters, counts))
}

// A KSM, its MAC under mac_key.
#[tactic(auto, using(crate::proofs::Judging::written, crate::proofs::Bodies::ksm_body_legal, crate::proofs::Judging::ksm_count), unfolding(crate::specs::Readings::ksm_reading))]
pub fn write_ksm(reply: &mut [u8], to: Address, ksm: &Ksm, mac_key: u64) -> Option<usize>
    ensures value { result ≡ answers.answer (readings.ksm_reading to.entry.rcv.now to.entry.org.now ksm.now mac_key) reply.old }
    ensures reply_after { reply.new ≡ answers.buffer (readings.ksm_reading to.entry.rcv.now to.entry.org.now ksm.now mac_key) reply.old }
{
    if !to.is_legal(reply.len()) {
        return None;
    }
    if !legal::is_ksm(ksm) {
        return None;
    }
    Some(whole::put_ksm(reply, to, ksm, mac_key))
}
