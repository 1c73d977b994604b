// The calls of document 01 over a lent row of entry structs: one function for all that turn an entry, and ask, start, image
// reading and image writing.
#![tactic(auto)]

ghost use Rattle.std.specs.Prelude.{◌≡◌, length, set, get_or, drop};
ghost use Rattle.partner.specs.Entry.{empty};
ghost use Rattle.partner.specs.Table.{identities, differs};
ghost use Rattle.image.specs.Image.{front_size, slots_in};
ghost use Rattle.outcome.specs.Report.{report_of};
ghost use Rattle.sight.specs.Asked.{call_of};
ghost use Rattle.sight.specs.Sight as sights;
ghost use Rattle.sight.specs.Table.{row_legal};
ghost use Rattle.row.specs.Calls as given;

mod stored;

use calls::Refusal;
use outcome::{Given, Report, Told};
use partner::Entry;
pub use sight::Found;
use sight::Sight;
use sight::aims::{Act, Aim};

// The entry of a slot; an empty one past the end.
pub fn look_up(row: &[Entry], at: usize) -> Entry
    ensures { result ≡ get_or row.now at empty }
{
    row.get(at).copied().unwrap_or(partner::empty())
}

// A slot given new contents, every other as it was; past the end nothing.
// By its index: through `get_mut` the goals at the return speak of values that no proof may name.
pub fn replace(row: &mut [Entry], at: usize, e: Entry)
    ensures { row.new ≡ set row.old at e }
{
    if at < row.len() {
        row[at] = e;
    }
}

// Whether none of these partners has the identity of e.
fn apart(later: &[Entry], e: &Entry) -> bool
    ensures { result ≡ differs e.now.identity.bytes (identities later.now) }
{
    later.iter().all(|other| sight::differ(e, other))
}

// What is seen of the row: whether it is legal, and the slot that is sought.
fn survey(row: &[Entry], aim: &Aim) -> Sight
    ensures { result ≡ sights.survey aim.now row.now }
{
    let mut seen = Sight::unseen();
    for (at, e) in row.iter().enumerate() {
        seen.see(aim, at, e, apart(&row[at + 1..], e));
    }
    seen.conclude(aim, row.len());
    seen
}

// Whether our identity is a name and the row is legal: what every call but start and image reading tests before all else.
#[tactic(auto, using(sight::proofs::Rows::legal_is))]
pub fn legal(row: &[Entry], own: &[u8]) -> bool
    ensures { result ≡ row_legal own.now row.now }
{
    survey(row, &Aim::ours(own)).legal
}

// Ask for an entry: 13, 3.
#[tactic(auto, using(crate::proofs::Asking::asked_is))]
pub fn ask(row: &[Entry], own: &[u8], partner: &[u8]) -> Found
    ensures { result ≡ given.asked own.now row.now partner.now }
{
    survey(row, &Aim::at_partner(own, partner)).shown()
}

// Every call that turns an entry: whom it is about, what is seen of the row, the turn of one entry, and it put back in its
// slot.
pub fn call(
    row: &mut [Entry],
    own: &[u8],
    who: &[u8],
    act: Act,
    text: &[u8],
    reply: &mut [u8],
) -> Report
    ensures { given.Called own.now row.old
        (call_of act (length reply.old) who.now text.now)
        reply.old result row.new reply.new }
{
    let aim = act.aim(own, who, text);
    let seen = survey(row, &aim);
    let (entry, report) = turn::take(own, &aim, &seen, act, text, reply);
    if let Some(slot) = seen.slot {
        replace(row, slot, entry);
    }
    report
}

// Start: 13, 10. 64 empty slots.
// A number answers: `start_13`, `start_10` and `start_0` of specs/Orders speak of it.
#[tactic(auto, using(crate::proofs::Starting::start_refused, crate::proofs::Starting::start_done))]
pub fn start(row: &mut [Entry], own: &[u8]) -> u32
    ensures { given.Started own.now row.old result row.new }
{
    if let Err(refusal) = stored::start_answer(own, row.len()) {
        return refusal.number();
    }
    row.fill(partner::empty());
    0
}

// The row filled from an image, slot by slot.
// By a slot's number, which `image::slot` takes; of what goes through `iter_mut().enumerate()` no proof learns anything.
fn fill(row: &mut [Entry], image: &[u8])
    requires { length row.old ≡ 64 }
    ensures { row.new ≡ slots_in 64 (drop front_size image.now) }
{
    for at in 0..row.len() {
        row[at] = image::slot(image, at);
    }
}

// Image reading: 13. The table that the image holds, slot by slot.
// A number answers: `read_13_row`, `read_13_image` and `read_0` of specs/Orders speak of it.
#[tactic(auto, using(crate::proofs::Starting::read_refused, crate::proofs::Starting::read_64, crate::proofs::Starting::read_done))]
pub fn read_image(image: &[u8], row: &mut [Entry]) -> u32
    ensures { given.ImageRead image.now row.old result row.new }
{
    if let Err(refusal) = stored::read_answer(image, row.len()) {
        return refusal.number();
    }
    fill(row, image);
    0
}

// The image of a legal row at the front of `out`, where it fits.
fn written(row: &[Entry], own: &[u8], out: &mut [u8]) -> Result<Given, Refusal>
    ensures { given.ImageWritten own.now row.now out.old (report_of result) out.new }
{
    if !legal(row, own) {
        return Err(Refusal::Illegal);
    }
    if out.len() < stored::size(row) {
        return Err(Refusal::NoRoom);
    }
    let length = stored::put_image(out, own, row);
    Ok(Given::Done {
        length,
        told: Told::Nothing,
    })
}

// Image writing: 13, 6 (the image does not fit). The whole image at the front of `out`, its length in the report.
pub fn write_image(row: &[Entry], own: &[u8], out: &mut [u8]) -> Report
    ensures { given.ImageWritten own.now row.now out.old result out.new }
{
    outcome::report_of(written(row, own, out))
}
