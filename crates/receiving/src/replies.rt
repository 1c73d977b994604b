// What we answer: an ESM or an RSM to the partner, and its length.
ghost use Rattle.std.specs.Prelude.{◌≡◌, ◌≤◌, true, length};
ghost use Rattle.octets.specs.Part.{bare};
ghost use Rattle.csm.specs.Message as csm;
ghost use Rattle.calls.specs.Receive as steps;
ghost use Rattle.receiving.specs.Stages as stages;

use crate::Taken;
use messages::{Address, Counts};
use outcome::{Parties, Told};

// To the partner, from us. Stands in `building` too: `outcome`, on which both stand, knows no messages, and has no other need of them.
fn to_partner(us: Parties) -> Address
    ensures rcv { result.rcv.now ≡ bare us.entry.e.now.identity.bytes }
    ensures org { result.org.now ≡ us.entry.own.now }
{
    Address {
        rcv: octets::bare(&us.e.identity.bytes),
        org: us.own,
    }
}

// An ESM of these letters and counts. The room of a lent reply is asked for here and below: what writes is lent the buffer
// itself, by the project's rule, and no struct around it.
pub(crate) fn complain(us: Parties, letters: u64, counts: Option<Counts>, reply: &mut [u8]) -> usize
    requires roomy { 256 ≤ length reply.old }
    requires lawful { csm.legal_body (steps.esm_body letters (stages.counts_in counts)) ≡ true }
    ensures { stages.Replies (csm.print (steps.to_partner us.entry.own.now us.entry.e.now (steps.esm_body letters (stages.counts_in counts))))
        reply.old reply.new result }
{
    messages::write_esm(reply, to_partner(us), letters, counts).unwrap_or(0)
}

// To a KSM that is taken an RSM under its keys, which are the incoming ones now; to others nothing.
pub(crate) fn confirm(us: Parties, taken: &Taken, reply: &mut [u8]) -> usize
    requires { 256 ≤ length reply.old }
    ensures { stages.Replies (stages.reply_to us.entry.own.now us.entry.e.now taken.now) reply.old reply.new result }
{
    let Told::Keys { .. } = taken.told else {
        return 0;
    };
    let keys = partner::data_keys(taken.entry.receiving.incoming);
    messages::write_rsm(reply, to_partner(us), sealing::mac_key(keys)).unwrap_or(0)
}
