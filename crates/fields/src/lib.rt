// One field of a message at a place of the lent text: what its contents stand for, and where they stand.
#![tactic(auto)]

ghost use Rattle.std.specs.Prelude.{◌≡◌, drop, option_map};
ghost use Rattle.octets.specs.Text.{blank, is_run};
ghost use Rattle.csm.specs.Format.{plain, upto, pre};
ghost use Rattle.csm.specs.Fields.{count, check, hex, half_digits, svr, erf, kd, field, tag as tag_of, SVR, ERF, KD, MCL};
ghost use Rattle.fields.specs.Seen.{taken, itself, check_text, field_at, as_part, as_number, as_key, name_at, class_of, class_name};
ghost use Rattle.fields.specs.Steps as steps;

mod keys;
mod pieces;
mod words;

use octets::Span;
use pieces::Piece;
pub use words::{block, service};

// What a field's contents stand for, if it is there; where what follows it starts, and where it was sought if it is missing.
#[derive(Clone, Copy)]
pub struct Field<T> {
    pub contents: Option<T>,
    pub next: usize,
}

// A number as it is written: its value, and where its text stands.
#[derive(Clone, Copy)]
pub struct Numeral {
    pub value: u64,
    pub span: Span,
}

// A KD: its key as enciphered, whether it is marked P, and where its contents and its names stand.
#[derive(Clone, Copy)]
pub struct Kd {
    pub key: u64,
    pub p: bool,
    pub contents: Span,
    pub idk1: Option<Span>,
    pub idk2: Option<Span>,
}

// The class that MCL names.
#[derive(Clone, Copy)]
pub enum Class {
    Rsi,
    Ksm,
    Rsm,
    Esm,
    Dsm,
    Ers,
    Rfs,
    Rtr,
}

impl Class {
    // Its name, as MCL has it.
    pub fn name(&self) -> &str
        ensures { result.now ≡ class_name self.now }
    {
        match self {
            Class::Rsi => "RSI",
            Class::Ksm => "KSM",
            Class::Rsm => "RSM",
            Class::Esm => "ESM",
            Class::Dsm => "DSM",
            Class::Ers => "ERS",
            Class::Rfs => "RFS",
            Class::Rtr => "RTR",
        }
    }
}

// A field with that tag at `at`, if `read` takes its contents for something.
fn read_field<T: Copy, R: Fn(Piece<'_>) -> Option<T>>(
    text: &[u8],
    at: usize,
    tag: &[u8],
    read: R,
) -> Field<T>
    requires { R.IsAlwaysCallable read }
    ensures { steps.ReadAs (λ p. steps.placed p.at p.w.now) (R.post read) at tag.now (taken (steps.piece tag.now (drop at text.now))) result }
{
    let missing = Field {
        contents: None,
        next: at,
    };
    let Some(piece) = pieces::contents(text, at, tag) else {
        return missing;
    };
    let Some(contents) = read(piece) else {
        return missing;
    };
    Field {
        contents: Some(contents),
        next: piece.at + piece.w.len() + 1,
    }
}

// The number that a piece stands for.
fn number(value: Option<u64>, piece: Piece<'_>) -> Option<Numeral>
    ensures { result ≡ option_map (as_number (name_at piece.entry.at piece.entry.w.now)) value }
{
    let value = value?;
    Some(Numeral {
        value,
        span: piece.span(),
    })
}

// A run of low to high digits and capitals up to top, at `at` behind that tag.
pub fn run_field(
    text: &[u8],
    at: usize,
    tag: &[u8],
    top: u8,
    low: usize,
    high: usize,
) -> Field<Span>
    ensures { result ≡ field_at as_part itself at tag.now (taken ((pre tag.now (upto blank (plain (is_run top low high)))).read
        (drop at text.now))) }
{
    read_field(
        text,
        at,
        tag,
        |piece| octets::is_run(piece.w, top, low, high).then_some(piece.span()),
    )
}

// A count at `at` behind that tag: CTP, CTR.
pub fn count_field(text: &[u8], at: usize, tag: &[u8]) -> Field<Numeral>
    ensures { result ≡ field_at as_number count.text at tag.now (taken ((pre tag.now (upto blank count)).read
        (drop at text.now))) }
{
    read_field(text, at, tag, |piece| number(words::count(piece.w), piece))
}

// Four hex digits at `at` behind that tag.
fn half_field(text: &[u8], at: usize, tag: &[u8]) -> Field<Numeral>
    ensures { result ≡ field_at as_number (hex half_digits).text at tag.now (taken ((pre tag.now (upto blank (hex half_digits))).read
        (drop at text.now))) }
{
    read_field(text, at, tag, |piece| number(words::hex(piece.w, 4), piece))
}

// Four hex digits, blank, four hex digits at `at` behind that tag: MAC, EDC.
pub fn check_field(text: &[u8], at: usize, tag: &[u8]) -> Field<Numeral>
    ensures { result ≡ field_at as_number check_text at tag.now (taken ((pre tag.now check).read
        (drop at text.now))) }
{
    let missing = Field {
        contents: None,
        next: at,
    };
    let high = half_field(text, at, tag);
    let Some(left) = high.contents else {
        return missing;
    };
    let low = half_field(text, high.next, b"");
    let Some(right) = low.contents else {
        return missing;
    };
    Field {
        contents: Some(Numeral {
            value: left.value * 65536 + right.value,
            span: Span {
                at: left.span.at,
                length: 9,
            },
        }),
        next: low.next,
    }
}

// The service at `at`, by its place among the twelve contents of SVR.
pub fn service_field(text: &[u8], at: usize) -> Field<Numeral>
    ensures { result ≡ field_at as_number svr.text at (tag_of SVR) (taken ((field SVR).read (drop at text.now))) }
{
    read_field(
        text,
        at,
        b"SVR/",
        |piece| number(words::service(piece.w), piece),
    )
}

// The letters of the ERF at `at`, as bits, A the lowest.
pub fn letters_field(text: &[u8], at: usize) -> Field<Numeral>
    ensures { result ≡ field_at as_number erf.text at (tag_of ERF) (taken ((field ERF).read (drop at text.now))) }
{
    read_field(
        text,
        at,
        b"ERF/",
        |piece| number(words::letters(piece.w), piece),
    )
}

// The KD at `at`.
pub fn key_field(text: &[u8], at: usize) -> Field<Kd>
    ensures { result ≡ field_at as_key kd.text at (tag_of KD) (taken ((field KD).read (drop at text.now))) }
{
    read_field(text, at, b"KD/", |piece| keys::key(piece))
}

// The class that the MCL at `at` names.
pub fn class_field(text: &[u8], at: usize) -> Option<Class>
    ensures { result ≡ option_map class_of (taken ((field MCL).read (drop at text.now))) }
{
    let mcl = pieces::contents(text, at, b"MCL/")?;
    words::class(mcl.w)
}
