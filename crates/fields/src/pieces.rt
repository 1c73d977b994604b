// Parts of a text that know where they stand in it: what a tag has up to the next blank, and the pieces between dots.
ghost use Rattle.std.specs.Prelude.{◌≡◌, ◌==◌, ◌+◌, ◌<◌, ◌^◌, length, drop, option_map};
ghost use Rattle.std.specs.List.{position};
ghost use Rattle.csm.specs.Fields.{split, nonempty};
ghost use Rattle.fields.specs.Seen.{taken, name_at};
ghost use Rattle.fields.specs.Steps as steps;

use octets::Span;

// A part of a text, and where it stands; a byte follows it, or the text ends there.
#[derive(Clone, Copy)]
pub(crate) struct Piece<'a> {
    pub w: &'a [u8],
    pub at: usize,
    ghost placed: { at + length w.now + 1 < 2 ^ 64 },
}

impl<'a> Piece<'a> {
    // Where it stands.
    pub fn span(self) -> Span
        ensures { result ≡ name_at self.entry.at self.entry.w.now }
    {
        Span {
            at: self.at,
            length: self.w.len(),
        }
    }

    // Where it stands, if it is more than nothing.
    pub fn name(self) -> Option<Span>
        ensures { result ≡ option_map (name_at self.entry.at) (nonempty self.entry.w.now) }
    {
        if self.w.is_empty() {
            return None;
        }
        Some(self.span())
    }

    // The piece before the first dot, and what stands behind that dot.
    pub fn parted(self) -> (Piece<'a>, Option<Piece<'a>>)
        ensures { steps.Parted (steps.placed self.entry.at self.entry.w.now) (steps.placed result.0.at result.0.w.now)
            (option_map (λ r. steps.placed r.at r.w.now) result.1) }
    {
        match find(self.w, b'.') {
            Some(n) => (
                Piece {
                    w: &self.w[..n],
                    at: self.at,
                },
                Some(Piece {
                    w: &self.w[n + 1..],
                    at: self.at + n + 1,
                }),
            ),
            None => (self, None),
        }
    }
}

// Where the first x stands in w.
fn find(w: &[u8], x: u8) -> Option<usize>
    ensures { result ≡ position (λ b. b == x) w.now }
{
    w.iter().position(|b| *b == x)
}

// What stands behind that tag at `at`, up to the first blank.
pub(crate) fn contents<'a>(text: &'a [u8], at: usize, tag: &[u8]) -> Option<Piece<'a>>
    ensures { option_map (λ p. steps.placed p.at p.w.now) result
        ≡ option_map (steps.placed (at + length tag.now)) (taken (steps.piece tag.now (drop at text.now))) }
{
    let rest = text.get(at..)?.strip_prefix(tag)?;
    let length = find(rest, b' ')?;
    Some(Piece {
        w: &rest[..length],
        at: at + tag.len(),
    })
}
