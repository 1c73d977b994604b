// The writer of a KD: the key as enciphered, then its subfields.
ghost use Rattle.std.specs.Prelude.{◌++◌};
ghost use Rattle.csm.specs.Fields as fields;
ghost use Rattle.octets.specs.Wrote.{Wrote};
ghost use Rattle.writer.specs.Contents as contents;

use crate::{Key, digits, put_text};

// The first subfield: its dot, and P where the key is marked.
fn put_mark(rest: &mut [u8], p: bool) -> usize
    ensures { Wrote (fields.sub (fields.mark p)) rest.old rest.new result }
{
    put_text(rest, if p { b".P" } else { b"." })
}

// A name's subfield: its dot and the name.
fn put_name(rest: &mut [u8], name: &[u8]) -> usize
    ensures { Wrote (fields.sub name.now) rest.old rest.new result }
{
    let a = put_text(rest, b".");
    a + put_text(&mut rest[a..], name)
}

// The first two subfields.
fn put_two(rest: &mut [u8], p: bool, idk1: &[u8]) -> usize
    ensures { Wrote (fields.sub (fields.mark p) ++ fields.sub idk1.now) rest.old rest.new result }
{
    let a = put_mark(rest, p);
    a + put_name(&mut rest[a..], idk1)
}

// The subfields as far as there are any.
fn put_subfields(rest: &mut [u8], p: bool, idk1: &[u8], idk2: &[u8]) -> usize
    ensures { Wrote (fields.subfields p (fields.nonempty idk1.now) (fields.nonempty idk2.now)) rest.old rest.new result }
{
    if !idk2.is_empty() {
        let a = put_two(rest, p, idk1);
        a + put_name(&mut rest[a..], idk2)
    } else if !idk1.is_empty() {
        put_two(rest, p, idk1)
    } else if p {
        put_mark(rest, p)
    } else {
        0
    }
}

// KD: 16 hex digits and the subfields.
pub(crate) fn put_kd(rest: &mut [u8], key: &Key) -> usize
    ensures { Wrote ((fields.field fields.KD).print (contents.kd_of key.now)) rest.old rest.new result }
{
    let (idk1, idk2) = (octets::bare(&key.idk1), octets::bare(&key.idk2));
    let a = digits::put_block(rest, b"KD/", key.sealed);
    let b = a + put_subfields(&mut rest[a..], key.p, idk1, idk2);
    b + put_text(&mut rest[b..], b" ")
}
