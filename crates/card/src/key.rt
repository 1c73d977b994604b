// A top key by its bytes, and the name that goes with it.
ghost use Rattle.std.specs.Prelude.{◌≡◌};
ghost use Rattle.card.specs.Ways as ways;
ghost use Rattle.card.specs.Whole as whole;

use keying::Top;

// 8 a single key, 16 a pair; another number is none.
pub(crate) fn top_in(key: &[u8]) -> Option<Top>
    ensures { result ≡ whole.top_in key.now }
{
    match key.len() {
        8 => Some(Top::Single(octets::number(key))),
        16 => Some(Top::Pair(octets::number(&key[..8]), octets::number(&key[8..]))),
        _ => None,
    }
}

// The key's name; where there is no key, none: that is answered as a bad key name is.
pub(crate) fn name_with<'a>(name: &'a [u8], key: Option<Top>) -> &'a [u8]
    ensures { result.now ≡ ways.name_or_none name.now key }
{
    match key {
        Some(_) => name,
        None => &name[..0],
    }
}
