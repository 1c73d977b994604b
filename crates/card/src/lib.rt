// Every call of the card over the stored image, each a line or two over one way: aim, look-up, turn, put-back. Receive, build
// a KSM and give up change the image in place, build an RSI and ask only read it; start, load and remove write a whole new
// image to a lent buffer.
#![tactic(auto)]

ghost use Rattle.std.specs.Prelude.{◌≡◌, length};
ghost use Rattle.calls.specs.Calls as calls;
ghost use Rattle.outcome.specs.Report as reports;
ghost use Rattle.request.specs.Request as requests;
ghost use Rattle.card.specs.Over as over;
ghost use Rattle.card.specs.Whole as whole;
ghost use Rattle.card.specs.Ways as ways;

mod key;
mod seen;

use calls::Refusal;
use keying::Top;
use outcome::{Given, Report, Told, report_of};
use sight::Glance;
use sight::aims::{Act, Aim};

// ---- the way

// Whom a call is about.
fn aim(image: &[u8], who: &[u8], act: Act, text: &[u8]) -> Aim
    ensures { result ≡ ways.aim act image.now who.now text.now }
{
    act.aim(octets::bare(image::own_identity(image)), who, text)
}

// The slot that is sought is looked up; of what is no legal image nothing is seen. The answer that the aim has is 0 or the
// number of a refusal, as it is of every call.
fn find(image: &[u8], aim: &Aim, act: Act, text: &[u8], room: usize) -> Result<usize, Refusal>
    requires { ways.Listed aim.now.answer }
    ensures { ways.Finds aim.now image.now act text.now room result }
{
    if !image::legal(image) {
        return Err(Refusal::Illegal);
    }
    let theirs = seen::theirs(image, aim);
    let slot = seen::sought(image, aim, theirs);
    let glance = Glance {
        legal: true,
        taken: theirs.is_some(),
        there: slot.is_some(),
    };
    match Refusal::numbered(turn::refusal(aim, glance, act, text, room)) {
        Some(refusal) => Err(refusal),
        None => slot.ok_or(Refusal::NoPartner),
    }
}

// The entry that was found is turned and put back. Always inlined, so that each call has room for its own act alone.
#[inline(always)]
fn change(
    image: &mut [u8],
    who: &[u8],
    act: Act,
    text: &[u8],
    reply: &mut [u8],
) -> Result<Given, Refusal>
    ensures { ways.Changed act image.old who.now text.now reply.old (reports.report_of result) image.new reply.new }
{
    let aim = aim(image, who, act, text);
    let slot = find(image, &aim, act, text, reply.len())?;
    let own = octets::bare(image::own_identity(image));
    let entry = image::slot(image, slot);
    let turned = turn::turn(own, aim.partner, &entry, act, text, reply)?;
    image::put_slot(image, slot, turned.entry);
    Ok(turned.given)
}

// The entry that was found is turned, and the image stays. Not one with `change`: what both share would hand out a slot and an
// entry too, of which this wants neither.
#[inline(always)]
fn read(image: &[u8], who: &[u8], act: Act, text: &[u8], reply: &mut [u8]) -> Result<Given, Refusal>
    ensures { ways.Turns act image.now who.now text.now reply.old (reports.report_of result) reply.new }
{
    let aim = aim(image, who, act, text);
    let slot = find(image, &aim, act, text, reply.len())?;
    let own = octets::bare(image::own_identity(image));
    let entry = image::slot(image, slot);
    let turned = turn::turn(own, aim.partner, &entry, act, text, reply)?;
    Ok(turned.given)
}

// What is told where no more is than a length.
fn told(length: Result<usize, Refusal>) -> Report
    ensures { result ≡ ways.told length }
{
    report_of(length.map(|length| Given::Done {
        length,
        told: Told::Nothing,
    }))
}

// The record of the entry that was found.
fn shown(image: &[u8], partner: &[u8], reply: &mut [u8]) -> Result<usize, Refusal>
    ensures { over.Written (whole.ask_over image.now (length reply.old) partner.now) reply.old (ways.told result) reply.new }
{
    let act = Act::Ask;
    let aim = aim(image, partner, act, b"").with_room(calls::ROOM);
    let slot = find(image, &aim, act, b"", reply.len())?;
    record::put_entry(reply, image::slot(image, slot)).ok_or(Refusal::NoRoom)
}

// The first image.
fn started(own: &[u8], out: &mut [u8]) -> Result<usize, Refusal>
    ensures { over.Written (whole.start_over own.now (length out.old)) out.old (ways.told result) out.new }
{
    if out.len() < image::LARGEST {
        return Err(Refusal::NoRoom);
    }
    if !octets::is_name(own) {
        return Err(Refusal::BadIdentity);
    }
    image::start(partner::name_of(own), out).ok_or(Refusal::NoRoom)
}

// The image with a partner in the slot that was found.
fn loaded(
    image: &[u8],
    partner: &[u8],
    name: &[u8],
    key: &[u8],
    out: &mut [u8],
) -> Result<usize, Refusal>
    ensures { over.Written (whole.load_over image.now (length out.old) partner.now name.now key.now) out.old (ways.told result) out.new }
{
    let key = key::top_in(key);
    let named = key::name_with(name, key);
    let top = key.unwrap_or(Top::Single(0));
    let act = Act::Load(top);
    let aim = aim(image, partner, act, named).with_room(image::LARGEST);
    let slot = find(image, &aim, act, named, out.len())?;
    let identity = aim.partner.ok_or(Refusal::BadIdentity)?;
    let e = changes::loaded(identity, partner::name_of(named), top);
    image::load_slot(image, slot, e, out).ok_or(Refusal::NoRoom)
}

// The image with the slot that was found empty.
fn removed(image: &[u8], partner: &[u8], out: &mut [u8]) -> Result<usize, Refusal>
    ensures { over.Written (whole.remove_over image.now (length out.old) partner.now) out.old (ways.told result) out.new }
{
    let act = Act::Remove;
    let aim = aim(image, partner, act, b"").with_room(image::LARGEST);
    let slot = find(image, &aim, act, b"", out.len())?;
    image::remove_slot(image, slot, out).ok_or(Refusal::NoRoom)
}

// ---- the image as it is lent

// Receive: 13, 6, 1, 2, 3, then by class.
pub fn receive(image: &mut [u8], text: &[u8], reply: &mut [u8]) -> Report
    ensures { over.Called image.old (calls.receive (length reply.old) text.now) reply.old result image.new reply.new }
{
    report_of(change(image, b"", Act::Receive, text, reply))
}

// Build a KSM, by the request's bytes: 13, 6, 3, 7, 8, 11, 12.
pub fn build_ksm(image: &mut [u8], partner: &[u8], request: &[u8], reply: &mut [u8]) -> Report
    ensures { over.Called image.old (calls.about partner.now (calls.build_ksm (length reply.old) (requests.request_in request.now))) reply.old result image.new reply.new }
{
    report_of(change(image, partner, Act::BuildKsm, request, reply))
}

// Build an RSI, by the contents of SVR: 13, 6, 3, 12. It changes nothing.
pub fn build_rsi(image: &[u8], partner: &[u8], contents: &[u8], reply: &mut [u8]) -> Report
    ensures { over.Written (over.outcome_over image.now (calls.about partner.now (calls.build_rsi (length reply.old) contents.now))) reply.old result reply.new }
{
    report_of(read(image, partner, Act::BuildRsi, contents, reply))
}

// Give up: 13, 3, 5.
pub fn give_up(image: &mut [u8], partner: &[u8]) -> Report
    ensures { over.CalledQuietly image.old (calls.about partner.now calls.give_up) result image.new }
{
    // no reply follows
    let mut reply = [0u8; 1];
    report_of(change(image, partner, Act::GiveUp, b"", &mut reply))
}

// Ask for an entry: 13, 6, 3; then the body of its record in `reply`.
pub fn ask(image: &[u8], partner: &[u8], reply: &mut [u8]) -> Report
    ensures { over.Written (whole.ask_over image.now (length reply.old) partner.now) reply.old result reply.new }
{
    told(shown(image, partner, reply))
}

// ---- a whole new image

// Start: 6, 10; then the image of our identity and 64 empty slots in `out`.
pub fn start(own: &[u8], out: &mut [u8]) -> Report
    ensures { over.Written (whole.start_over own.now (length out.old)) out.old result out.new }
{
    told(started(own, out))
}

// Load: 13, 6, 10, 12, 11, 9; then the image with the partner in the lowest free slot, in `out`.
pub fn load(image: &[u8], partner: &[u8], name: &[u8], key: &[u8], out: &mut [u8]) -> Report
    ensures { over.Written (whole.load_over image.now (length out.old) partner.now name.now key.now) out.old result out.new }
{
    told(loaded(image, partner, name, key, out))
}

// Remove: 13, 6, 3; then the image with that slot empty, in `out`.
pub fn remove(image: &[u8], partner: &[u8], out: &mut [u8]) -> Report
    ensures { over.Written (whole.remove_over image.now (length out.old) partner.now) out.old result out.new }
{
    told(removed(image, partner, out))
}
