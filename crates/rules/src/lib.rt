// When an entry is legal by itself: the rules of document 01's list, in its order.
#![tactic(auto)]

ghost use Rattle.std.specs.Prelude.{◌≡◌, ◌||◌, ltb};
ghost use Rattle.octets.specs.Text.{run_char};
ghost use Rattle.partner.specs.Legal as rule;
ghost use Rattle.partner.specs.Units as unit;

use partner::{
    BROKEN, CONFIRMED, DataKey, Entry, IDLE, KeySet, LIMIT, PAIR, SINGLE, TopKey, WAITING,
};

// Whether b is a character of a name.
fn is_letter(b: u8) -> bool
    ensures { result ≡ run_char 90 b }
{
    b.is_ascii_digit() | b.is_ascii_uppercase()
}

// Whether a text is a name filled with blanks: a character first, and behind a blank only blanks. No byte waits for the
// answer about another, so that all are compared at once.
pub fn is_filled(s: &[u8]) -> bool
    ensures { result ≡ rule.is_filled s.now }
{
    if s.len() != 16 {
        return false;
    }
    let mut formed = true;
    for pair in s.windows(2) {
        formed &= is_letter(pair[0]) | (pair[0] == b' ') & (pair[1] == b' ');
    }
    formed & (is_letter(s[15]) | (s[15] == b' ')) & (s[0] != b' ')
}

// Eight blanks as a number.
const BLANKS: u64 = 0x2020_2020_2020_2020;

// Whether a key's name is one, or 16 blanks for none.
#[tactic(auto, unfolding(octets::specs::Number::of_numbers))]
pub fn is_named(name: &[u8]) -> bool
    ensures { result ≡ rule.named_or_none name.now }
{
    octets::same_numbers(name, BLANKS, BLANKS) || is_filled(name)
}

// Whether a key place is unused, or its key has a name or none.
#[tactic(auto, unfolding(partner::specs::Legal::is_named))]
fn place_named(unused: bool, k: DataKey) -> bool
    ensures { result ≡ (unused || rule.is_named k) }
{
    unused || is_named(&k.name.bytes)
}

// Whether the names of a set's keys are well-formed.
#[tactic(auto, unfolding(partner::specs::Legal::set_named))]
fn set_named(set: KeySet) -> bool
    ensures { result ≡ rule.set_named set }
{
    place_named(set.count < 1, set.first) & place_named(set.count < 2, set.second)
}

// Well-formed names and identities.
#[tactic(auto, unfolding(partner::specs::Legal::names_formed))]
fn names_formed(e: Entry) -> bool
    ensures { result ≡ rule.names_formed e }
{
    is_filled(&e.identity.bytes)
        & is_filled(&e.top.name.bytes)
        & set_named(e.sending.outgoing)
        & set_named(e.receiving.incoming)
}

// Whether a key place is zero in all its bytes.
#[tactic(auto, unfolding(octets::specs::Number::of_numbers))]
pub fn is_unused(key: u64, name: &[u8]) -> bool
    ensures { result ≡ rule.zero_place key name.now }
{
    key == 0 && octets::same_numbers(name, 0, 0)
}

// Whether a key place is used, or zero.
#[tactic(auto, unfolding(partner::specs::Legal::is_unused))]
fn place_clean(used: bool, k: DataKey) -> bool
    ensures { result ≡ (used || rule.is_unused k) }
{
    used || is_unused(k.key, &k.name.bytes)
}

// Whether the unused key places of a set are zero.
#[tactic(auto, unfolding(partner::specs::Legal::set_clean))]
fn set_clean(set: KeySet) -> bool
    ensures { result ≡ rule.set_clean set }
{
    place_clean(1 <= set.count, set.first) & place_clean(2 <= set.count, set.second)
}

// Key form 1 or 2, a single key's second half zero.
#[tactic(auto, unfolding(partner::specs::Legal::form_clean))]
fn form_clean(k: TopKey) -> bool
    ensures { result ≡ rule.form_clean k }
{
    (k.form == PAIR) | (k.form == SINGLE) & (k.right == 0)
}

// Unused bytes: a single key's second half and unused key places are zero.
#[tactic(auto, unfolding(partner::specs::Legal::unused_zero))]
fn unused_zero(e: Entry) -> bool
    ensures { result ≡ rule.unused_zero e }
{
    form_clean(e.top) & set_clean(e.sending.outgoing) & set_clean(e.receiving.incoming)
}

// Odd parity of the top key halves in use.
#[tactic(auto, unfolding(partner::specs::Legal::top_odd))]
fn top_odd(k: TopKey) -> bool
    ensures { result ≡ rule.top_odd k }
{
    sealing::odd_top(partner::top_of(k))
}

// Counts 1 to 99,999,999.
#[tactic(auto, unfolding(partner::specs::Legal::counts_right))]
fn counts_right(next: u32, expected: u32) -> bool
    ensures { result ≡ rule.counts_right next expected }
{
    (1..=LIMIT).contains(&next) & (1..=LIMIT).contains(&expected)
}

// Phase 0 exactly when next send is 1.
fn idle_right(phase: u8, next: u32) -> bool
    ensures { result ≡ rule.idle_at_1 phase next }
{
    (phase == IDLE) == (next == 1)
}

// One or two keys if so, and none if not.
fn keys_if(so: bool, count: u8) -> bool
    ensures { result ≡ rule.count_if so count }
{
    if so {
        (1..=2).contains(&count)
    } else {
        count == 0
    }
}

// One or two outgoing keys in phases 1 and 2 and none in 0 and 3.
fn outgoing_right(phase: u8, count: u8) -> bool
    ensures { result ≡ rule.count_in_phase phase count }
{
    let keyed = (phase == WAITING) | (phase == CONFIRMED);
    (phase <= BROKEN) & keys_if(keyed, count)
}

// Incoming keys exactly when expected exceeds 1.
fn incoming_right(expected: u32, count: u8) -> bool
    ensures { result ≡ rule.count_if (ltb 1 expected) count }
{
    keys_if(1 < expected, count)
}

// ---- a unit at a time

// What the rules ask of a top key.
#[tactic(auto, unfolding(partner::specs::Units::top_right))]
pub fn top_right(k: TopKey) -> bool
    ensures { result ≡ unit.top_right k }
{
    is_filled(&k.name.bytes) & form_clean(k) & top_odd(k)
}

// What they ask of the next send count, the phase and the number of outgoing keys.
#[tactic(auto, unfolding(partner::specs::Units::sending_right))]
pub fn sending_right(next: u32, phase: u8, count: u8) -> bool
    ensures { result ≡ unit.sending_right next phase count }
{
    (1..=LIMIT).contains(&next) & idle_right(phase, next) & outgoing_right(phase, count)
}

// What they ask of the expected count and the number of incoming keys.
#[tactic(auto, unfolding(partner::specs::Units::receiving_right))]
pub fn receiving_right(expected: u32, count: u8) -> bool
    ensures { result ≡ unit.receiving_right expected count }
{
    (1..=LIMIT).contains(&expected) & incoming_right(expected, count)
}

// ---- the list

// The number of the first rule that is broken, 0 where none is: that of the list `rules` of partner/specs/Legal.
#[tactic(auto, unfolding(partner::specs::Legal::broken, partner::specs::Legal::rules, partner::specs::Legal::idle_right, partner::specs::Legal::outgoing_right, partner::specs::Legal::incoming_right))]
pub fn broken(e: Entry) -> u32
    ensures { result ≡ rule.broken e }
{
    let sending = e.sending;
    let receiving = e.receiving;
    let n = octets::then(0, !names_formed(e), 3);
    let n = octets::then(n, !unused_zero(e), 4);
    let n = octets::then(n, !top_odd(e.top), 5);
    let n = octets::then(n, !counts_right(sending.next, receiving.expected), 6);
    let n = octets::then(n, !idle_right(sending.phase, sending.next), 7);
    let n = octets::then(n, !outgoing_right(sending.phase, sending.outgoing.count), 8);
    octets::then(
        n,
        !incoming_right(receiving.expected, receiving.incoming.count),
        9,
    )
}

// Whether none is.
#[tactic(auto, unfolding(partner::specs::Legal::legal))]
pub fn legal(e: Entry) -> bool
    ensures { result ≡ rule.legal e }
{
    broken(e) == 0
}
