// Whether a record is that of a legal entry, judged a unit at a time where it stands: names are lent as parts of it.
ghost use Rattle.std.specs.Prelude.{◌≡◌, ◌&&◌, ◌+◌, ◌≤◌, leb, length};
ghost use Rattle.octets.specs.Codec.{value_at};
ghost use Rattle.partner.specs.Record as stored;
ghost use Rattle.partner.specs.Legal as rule;
ghost use Rattle.partner.specs.Units as unit;

// A key place in use has a name or none, another is zero.
fn place_formed(s: &[u8], at: usize, used: bool) -> bool
    requires { (at + 24 ≤ length s.now) × (at ≤ 200) }
    ensures { result ≡ unit.place_formed used (value_at stored.place_layout at s.now) }
{
    let name = &s[at + 8..at + 24];
    if used {
        rules::is_named(name)
    } else {
        rules::is_unused(crate::key_in(s, at), name)
    }
}

// Both places of a key set.
#[tactic(auto, unfolding(partner::specs::Units::set_formed))]
fn set_formed(s: &[u8], at: usize) -> bool
    requires { (at + 49 ≤ length s.now) × (at ≤ 150) }
    ensures { result ≡ unit.set_formed (value_at stored.set_layout at s.now) }
{
    let count = crate::byte_in(s, at);
    place_formed(s, at + 1, 1 <= count) & place_formed(s, at + 1 + 24, 2 <= count)
}

// Identity and top key.
fn front_right(s: &[u8]) -> bool
    requires { stored.entry_size ≤ length s.now }
    ensures { result ≡ rule.is_filled (stored.entry_in s.now).identity.bytes && unit.top_right (stored.entry_in s.now).top }
{
    rules::is_filled(&s[..crate::TOP]) & rules::top_right(crate::top_in(s, crate::TOP))
}

// Whether s is a whole record, and its entry legal.
pub fn is_legal(s: &[u8]) -> bool
    ensures { result ≡ leb stored.entry_size (length s.now) && rule.legal (stored.entry_in s.now) }
{
    s.len() >= crate::SIZE
        && front_right(s)
            & rules::sending_right(
                crate::count_in(s, crate::NEXT),
                crate::byte_in(s, crate::PHASE),
                crate::byte_in(s, crate::OUTGOING),
            )
            & set_formed(s, crate::OUTGOING)
            & rules::receiving_right(
                crate::count_in(s, crate::EXPECTED),
                crate::byte_in(s, crate::INCOMING),
            )
            & set_formed(s, crate::INCOMING)
}
