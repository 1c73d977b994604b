// Field writers: each is lent the reply buffer's unwritten rest, lays its field over the front of it as far as there is
// room, and returns how many bytes it wrote: a rule of the project, so that nothing is copied twice.
#![tactic(auto)]

ghost use Rattle.std.specs.Prelude.{[], ◌∷◌, ◌++◌, ◌%◌, option_map, option_copied};
ghost use Rattle.octets.specs.Text.{blank};
ghost use Rattle.csm.specs.Format as formats;
ghost use Rattle.csm.specs.Fields as fields;
ghost use Rattle.csm.specs.Message as message;
ghost use Rattle.octets.specs.Wrote.{Wrote};
ghost use Rattle.writer.specs.Contents as contents;

mod digits;
mod kd;

// A data key as it stands in a KD: enciphered, whether it is marked P, and its names IDK1 and IDK2, each filled up with
// blanks; a name of blanks alone is none.
#[derive(Clone, Copy)]
pub struct Key {
    pub sealed: u64,
    pub p: bool,
    pub idk1: [u8; 16],
    pub idk2: [u8; 16],
}

// The IV of a KSM: its value, or its enciphered value.
#[derive(Clone, Copy)]
pub enum Vector {
    Plain(u64),
    Enciphered(u64),
}

// A text.
pub fn put_text(rest: &mut [u8], text: &[u8]) -> usize
    ensures { Wrote text.now rest.old rest.new result }
{
    octets::copy(rest, text)
}

// A field whose contents stand for themselves: tag, contents, blank.
pub fn put_field(rest: &mut [u8], tag: &[u8], text: &[u8]) -> usize
    ensures { Wrote (tag.now ++ (text.now ++ blank ∷ [])) rest.old rest.new result }
{
    let a = put_text(rest, tag);
    let b = a + put_text(&mut rest[a..], text);
    b + put_text(&mut rest[b..], b" ")
}

// A count, CTP or CTR: tag, its eight low digits in decimal, blank.
pub fn put_count(rest: &mut [u8], tag: &[u8], n: u64) -> usize
    ensures { Wrote (tag.now ++ (fields.decimal 7 (n % 100_000_000) ++ blank ∷ [])) rest.old rest.new result }
{
    let a = put_text(rest, tag);
    let b = a + digits::put_decimal(&mut rest[a..], n % 100_000_000);
    b + put_text(&mut rest[b..], b" ")
}

// ERF: the letters whose bits are set, A the lowest.
pub fn put_erf(rest: &mut [u8], letters: u64) -> usize
    ensures { Wrote ((fields.field fields.ERF).print letters) rest.old rest.new result }
{
    let a = put_text(rest, b"ERF/");
    let b = a + digits::put_letters(&mut rest[a..], letters);
    b + put_text(&mut rest[b..], b" ")
}

// MAC: four hex digits, blank, four hex digits.
pub fn put_mac(rest: &mut [u8], mac: u32) -> usize
    ensures { Wrote ((fields.field fields.MAC).print mac) rest.old rest.new result }
{
    let m = mac as u64;
    let a = put_text(rest, b"MAC/");
    let b = a + digits::put_half(&mut rest[a..], m / 65536);
    b + digits::put_half(&mut rest[b..], m % 65536)
}

// SVR: the service's contents, by its place among the twelve; none has a further place.
pub fn put_svr(rest: &mut [u8], service: u64) -> usize
    ensures { Wrote ((fields.field fields.SVR).print service) rest.old rest.new result }
{
    let a = put_text(rest, b"SVR/");
    let b = a + digits::put_service(&mut rest[a..], service);
    b + put_text(&mut rest[b..], b" ")
}

// IV, if there is one: P and its value, or E and its enciphered value.
pub fn put_iv(rest: &mut [u8], vector: Option<Vector>) -> usize
    ensures { Wrote (formats.maybe_print (fields.field fields.IV) (option_map contents.iv_of vector)) rest.old rest.new result }
{
    match vector {
        None => 0,
        Some(Vector::Plain(v)) => digits::put_vector(rest, b"IV/P", v),
        Some(Vector::Enciphered(v)) => digits::put_vector(rest, b"IV/E", v),
    }
}

// EDK, if there is one.
pub fn put_edk(rest: &mut [u8], edk: Option<&[u8]>) -> usize
    ensures { Wrote (formats.maybe_print (fields.field fields.EDK) (option_copied edk.entry)) rest.old rest.new result }
{
    match edk {
        None => 0,
        Some(date) => put_field(rest, b"EDK/", date),
    }
}

// NOS, if it is there: empty contents.
pub fn put_nos(rest: &mut [u8], notarized: bool) -> usize
    ensures { Wrote (formats.maybe_print (fields.field fields.NOS) (message.flagged notarized)) rest.old rest.new result }
{
    put_text(rest, if notarized { b"NOS/ " } else { b"" })
}

// One KD or two.
pub fn put_keys(rest: &mut [u8], first: &Key, second: Option<&Key>) -> usize
    ensures { Wrote (contents.keys_text first.now (option_copied second.entry)) rest.old rest.new result }
{
    let a = kd::put_kd(rest, first);
    match second {
        None => a,
        Some(key) => a + kd::put_kd(&mut rest[a..], key),
    }
}
