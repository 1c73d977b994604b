// The card's face: every call on numbers and byte slices, its answer as the result, the rest in a report of 32 bytes.
// host/khlongsit.h is its manual; `host_c` hands it to C.
#![tactic(auto)]

ghost use Rattle.std.specs.Prelude.{◌≡◌, length};
ghost use Rattle.dea.specs.Dea as dea;
ghost use Rattle.keying.specs.Mac as mac;
ghost use Rattle.calls.specs.Calls as calls;
ghost use Rattle.card.specs.Over as over;
ghost use Rattle.card.specs.Whole as whole;
ghost use Rattle.host.specs.Report as reports;
ghost use Rattle.request.specs.Request as requests;
ghost use Rattle.host.specs.Promises as contracts;

use outcome::Report;

mod report;

// What a call gives, in the report; its answer.
fn told(report: &mut [u8; 32], r: Report) -> u32
    ensures value { result ≡ r.answer }
    ensures report_after { report.new ≡ reports.report_bytes r }
{
    report::put_report(report, r);
    r.answer
}

// Receive: 13, 6, 1, 2, 3, then by class.
pub fn khl_receive(image: &mut [u8], text: &[u8], reply: &mut [u8], report: &mut [u8; 32]) -> u32
    ensures { contracts.ChangesAndWrites image.old
        (calls.receive (length reply.old) text.now)
        reply.old result image.new reply.new report.new }
{
    told(report, card::receive(image, text, reply))
}

// Build a KSM: 13, 6, 3, 7, 8, 11, 12.
pub fn khl_build_ksm(
    image: &mut [u8],
    partner: &[u8],
    request: &[u8],
    reply: &mut [u8],
    report: &mut [u8; 32],
) -> u32
    ensures { contracts.ChangesAndWrites image.old
        (calls.about partner.now
        (calls.build_ksm (length reply.old) (requests.request_in request.now)))
        reply.old result image.new reply.new report.new }
{
    told(report, card::build_ksm(image, partner, request, reply))
}

// Build an RSI: 13, 6, 3, 12.
pub fn khl_build_rsi(
    image: &[u8],
    partner: &[u8],
    service: &[u8],
    reply: &mut [u8],
    report: &mut [u8; 32],
) -> u32
    ensures { contracts.Writes (over.outcome_over image.now
        (calls.about partner.now (calls.build_rsi (length reply.old) service.now)))
        reply.old result reply.new report.new }
{
    told(report, card::build_rsi(image, partner, service, reply))
}

// Ask for an entry: 13, 6, 3.
pub fn khl_ask(image: &[u8], partner: &[u8], reply: &mut [u8], report: &mut [u8; 32]) -> u32
    ensures { contracts.Writes
        (whole.ask_over image.now (length reply.old) partner.now)
        reply.old result reply.new report.new }
{
    told(report, card::ask(image, partner, reply))
}

// Give up: 13, 3, 5.
pub fn khl_give_up(image: &mut [u8], partner: &[u8], report: &mut [u8; 32]) -> u32
    ensures { contracts.Changes image.old (calls.about partner.now calls.give_up)
        result image.new report.new }
{
    told(report, card::give_up(image, partner))
}

// Start: 6, 10.
pub fn khl_start(own: &[u8], out: &mut [u8], report: &mut [u8; 32]) -> u32
    ensures { contracts.Writes
        (whole.start_over own.now (length out.old))
        out.old result out.new report.new }
{
    told(report, card::start(own, out))
}

// Load: 13, 6, 10, 12, 11, 9.
pub fn khl_load(
    image: &[u8],
    partner: &[u8],
    name: &[u8],
    key: &[u8],
    out: &mut [u8],
    report: &mut [u8; 32],
) -> u32
    ensures { contracts.Writes
        (whole.load_over image.now (length out.old) partner.now name.now
        key.now)
        out.old result out.new report.new }
{
    told(report, card::load(image, partner, name, key, out))
}

// Remove: 13, 6, 3.
pub fn khl_remove(image: &[u8], partner: &[u8], out: &mut [u8], report: &mut [u8; 32]) -> u32
    ensures { contracts.Writes
        (whole.remove_over image.now (length out.old) partner.now)
        out.old result out.new report.new }
{
    told(report, card::remove(image, partner, out))
}

// For tests: a block enciphered under a key.
pub fn khl_test_encipher(key: u64, block: u64) -> u64
    ensures { result ≡ dea.encipher key block }
{
    cipher::encipher(key, block)
}

// For tests: a block deciphered under a key.
pub fn khl_test_decipher(key: u64, block: u64) -> u64
    ensures { result ≡ dea.decipher key block }
{
    cipher::decipher(key, block)
}

// For tests: the MAC of a text under a key.
pub fn khl_test_mac(key: u64, text: &[u8]) -> u32
    ensures { result ≡ mac.mac key text.now }
{
    sealing::mac(key, text)
}
