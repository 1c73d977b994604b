// What the whole contents of a KD stand for: the key, the mark and the names, dot by dot.
ghost use Rattle.std.specs.Prelude.{◌≡◌, ◌||◌, [], option_map};
ghost use Rattle.octets.specs.Text.{ascii, same, is_name};
ghost use Rattle.csm.specs.Format.{value};
ghost use Rattle.csm.specs.Fields.{split, kd};
ghost use Rattle.fields.specs.Seen.{kd_of};
ghost use Rattle.fields.specs.Steps.{subfields_seen};

use super::Kd;
use super::pieces::Piece;
use super::words::numeral;
use octets::Span;

// The subfields of a KD: the mark, and where the names stand.
#[derive(Clone, Copy)]
struct Subfields {
    p: bool,
    idk1: Option<Span>,
    idk2: Option<Span>,
}

// Whether w is the mark P or nothing.
fn is_mark(w: &[u8]) -> bool
    ensures { result ≡ same w.now [] || same w.now (ascii "P") }
{
    w.is_empty() || octets::same(w, b"P")
}

// Whether w is a name or nothing.
fn is_maybe_name(w: &[u8]) -> bool
    ensures { result ≡ same w.now [] || is_name w.now }
{
    w.is_empty() || octets::is_name(w)
}

// What stands behind the key and its dot: the mark, or it or nothing, a dot and names: IDK1, or IDK1 or nothing, a dot and
// IDK2.
fn behind_key(piece: Piece<'_>) -> Option<Subfields>
    ensures { result ≡ subfields_seen piece.entry.at (split piece.entry.w.now) }
{
    let (mark, names) = piece.parted();
    let p = octets::same(mark.w, b"P");
    let Some(names) = names else {
        return p.then_some(Subfields {
            p,
            idk1: None,
            idk2: None,
        });
    };
    if !is_mark(mark.w) {
        return None;
    }
    let (first, second) = names.parted();
    let Some(second) = second else {
        return octets::is_name(first.w).then_some(Subfields {
            p,
            idk1: first.name(),
            idk2: None,
        });
    };
    if !is_maybe_name(first.w) || !octets::is_name(second.w) {
        return None;
    }
    Some(Subfields {
        p,
        idk1: first.name(),
        idk2: second.name(),
    })
}

// A KD: 16 hex digits, and behind a dot its subfields.
pub(crate) fn key(piece: Piece<'_>) -> Option<Kd>
    ensures { result ≡ option_map (kd_of piece.entry.at) (value kd piece.entry.w.now) }
{
    let (digits, rest) = piece.parted();
    if !octets::is_run(digits.w, b'F', 16, 16) {
        return None;
    }
    let Subfields { p, idk1, idk2 } = match rest {
        Some(rest) => behind_key(rest)?,
        None => Subfields {
            p: false,
            idk1: None,
            idk2: None,
        },
    };
    Some(Kd {
        key: numeral(16, digits.w),
        p,
        contents: piece.span(),
        idk1,
        idk2,
    })
}
