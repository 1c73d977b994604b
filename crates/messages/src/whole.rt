// The writers of whole messages.
ghost use Rattle.std.specs.Prelude.{◌≡◌, true, ◌++◌, ◌≤◌, ◌<◌, length};
ghost use Rattle.csm.specs.Fields as fields;
ghost use Rattle.csm.specs.Message as message;
ghost use Rattle.octets.specs.Wrote.{Wrote};
ghost use Rattle.messages.specs.Readings as readings;
ghost use Rattle.messages.specs.Parts as parts;

use crate::{Address, Counts, Ksm};

// What every message starts with: `CSM(` and MCL, then RCV and ORG.
fn put_head(reply: &mut [u8], start: &[u8], to: Address) -> usize
    ensures { Wrote (start.now ++ ((fields.field fields.RCV).print to.entry.rcv.now ++ (fields.field fields.ORG).print to.entry.org.now)) reply.old reply.new result }
{
    let a = writer::put_text(reply, start);
    let b = a + writer::put_field(&mut reply[a..], b"RCV/", to.rcv);
    b + writer::put_field(&mut reply[b..], b"ORG/", to.org)
}

// RSI.
pub(crate) fn put_rsi(reply: &mut [u8], to: Address, service: u64) -> usize
    ensures { Wrote (message.print (readings.rsi_reading to.entry.rcv.now to.entry.org.now service)) reply.old reply.new result }
{
    let a = put_head(reply, b"CSM(MCL/RSI ", to);
    let b = a + writer::put_svr(&mut reply[a..], service);
    b + writer::put_text(&mut reply[b..], b")")
}

// Behind the first n bytes the MAC over what stands there after `CSM(`, then `)`.
fn seal(reply: &mut [u8], n: usize, mac_key: u64) -> usize
    requires { (4 ≤ n) × (n ≤ length reply.old) }
    ensures { Wrote (parts.sealed_front n mac_key reply.old) reply.old reply.new result }
{
    let m = sealing::mac(mac_key, &reply[4..n]);
    let a = n + writer::put_mac(&mut reply[n..], m);
    a + writer::put_text(&mut reply[a..], b")")
}

// RSM.
pub(crate) fn put_rsm(reply: &mut [u8], to: Address, mac_key: u64) -> usize
    requires { length (message.print (readings.rsm_reading to.rcv.now to.org.now mac_key)) ≤ length reply.old }
    ensures { Wrote (message.print (readings.rsm_reading to.entry.rcv.now to.entry.org.now mac_key)) reply.old reply.new result }
{
    let n = put_head(reply, b"CSM(MCL/RSM ", to);
    seal(reply, n, mac_key)
}

// CTP and CTR, or neither.
fn put_counts(rest: &mut [u8], counts: Option<Counts>) -> usize
    requires { parts.counts_legal counts ≡ true }
    ensures { Wrote (parts.counts_text counts) rest.old rest.new result }
{
    match counts {
        None => 0,
        Some(counts) => {
            let a = writer::put_count(rest, b"CTP/", counts.ctp);
            a + writer::put_count(&mut rest[a..], b"CTR/", counts.ctr)
        }
    }
}

// ESM.
pub(crate) fn put_esm(reply: &mut [u8], to: Address, letters: u64, counts: Option<Counts>) -> usize
    requires { parts.counts_legal counts ≡ true }
    ensures { Wrote (message.print (readings.esm_reading to.entry.rcv.now to.entry.org.now letters counts)) reply.old reply.new result }
{
    let a = put_head(reply, b"CSM(MCL/ESM ", to);
    let b = a + put_counts(&mut reply[a..], counts);
    let c = b + writer::put_erf(&mut reply[b..], letters);
    c + writer::put_text(&mut reply[c..], b")")
}

// A KSM up to its MAC.
fn put_covered(reply: &mut [u8], to: Address, ksm: &Ksm) -> usize
    requires { ksm.now.ctp < 100_000_000 }
    ensures { Wrote (parts.unsealed_text (readings.unsealed_ksm to.entry.rcv.now to.entry.org.now ksm.now)) reply.old reply.new result }
{
    let a = put_head(reply, b"CSM(MCL/KSM ", to);
    let b = a + writer::put_nos(&mut reply[a..], ksm.nos);
    let c = b + writer::put_keys(&mut reply[b..], &ksm.first, ksm.second.as_ref());
    let d = c + writer::put_iv(&mut reply[c..], ksm.vector);
    let e = d + writer::put_edk(&mut reply[d..], ksm.edk.as_ref().map(|date| &date[..]));
    e + writer::put_count(&mut reply[e..], b"CTP/", ksm.ctp)
}

// KSM.
pub(crate) fn put_ksm(reply: &mut [u8], to: Address, ksm: &Ksm, mac_key: u64) -> usize
    requires { (ksm.now.ctp < 100_000_000) × (length (message.print (readings.ksm_reading to.rcv.now to.org.now ksm.now mac_key)) ≤ length reply.old) }
    ensures { Wrote (message.print (readings.ksm_reading to.entry.rcv.now to.entry.org.now ksm.now mac_key)) reply.old reply.new result }
{
    let n = put_covered(reply, to, ksm);
    seal(reply, n, mac_key)
}
