// Whether there is room for a reply and each part of a message is legal.
ghost use Rattle.std.specs.Prelude.{◌≡◌, ◌&&◌, leb, option_map};
ghost use Rattle.octets.specs.Text as text;
ghost use Rattle.csm.specs.Format as formats;
ghost use Rattle.csm.specs.Fields as fields;
ghost use Rattle.writer.specs.Contents as contents;
ghost use Rattle.messages.specs.Parts as parts;

use crate::{Address, Counts, Ksm};
use writer::Key;

impl Address<'_> {
    // The room for a reply, and two identities.
    pub(crate) fn is_legal(self, room: usize) -> bool
        ensures { result ≡ leb 256 room && (text.is_name self.entry.rcv.now && text.is_name self.entry.org.now) }
    {
        256 <= room && octets::is_name(self.rcv) && octets::is_name(self.org)
    }
}

// A count: 1 to 99,999,999.
fn is_count(n: u64) -> bool
    ensures { result ≡ text.within 1 99_999_999 n }
{
    (1..=99_999_999).contains(&n)
}

// Counts, both or neither.
#[tactic(auto, unfolding(crate::specs::Parts::counts_legal))]
fn are_counts(counts: Option<Counts>, both: bool) -> bool
    ensures { result ≡ parts.counts_agree counts both && parts.counts_legal counts }
{
    counts.map_or(!both, |c| both && is_count(c.ctp) && is_count(c.ctr))
}

// Letters of an ESM, at least one, and the counts exactly with P.
#[tactic(auto, unfolding(crate::specs::Parts::error_legal))]
pub(crate) fn is_error(letters: u64, counts: Option<Counts>) -> bool
    ensures { result ≡ parts.error_legal letters counts }
{
    (1..=511).contains(&letters) && are_counts(counts, letters / 128 % 2 == 1)
}

// A name or none.
fn is_maybe_name(name: &[u8]) -> bool
    ensures { result ≡ fields.legal_name (fields.nonempty name.now) }
{
    name.is_empty() || octets::is_name(name)
}

// A KD: 16 hex digits hold any key of 64 bits, so its names decide.
#[tactic(auto, using(std::proofs::lemmas::Bool::Decides::nat_tests), unfolding(crate::specs::Parts::kd_legal))]
fn is_kd(key: Key) -> bool
    ensures { result ≡ parts.kd_legal key }
{
    is_maybe_name(octets::bare(&key.idk1)) && is_maybe_name(octets::bare(&key.idk2))
}

// A second KD or none.
#[tactic(auto, unfolding(crate::specs::Parts::kd_legal))]
fn is_maybe_kd(key: Option<Key>) -> bool
    ensures { result ≡ formats.maybe_legal (fields.field fields.KD) (option_map contents.kd_of key) }
{
    key.is_none_or(is_kd)
}

// A date: twelve digits.
fn is_date(date: [u8; 12]) -> bool
    ensures { result ≡ fields.edk.legal date }
{
    octets::is_run(&date, 0, 12, 12)
}

// A date or none.
fn is_maybe_date(edk: Option<[u8; 12]>) -> bool
    ensures { result ≡ formats.maybe_legal (fields.field fields.EDK) edk }
{
    edk.is_none_or(is_date)
}

// The parts of a KSM.
#[tactic(auto, unfolding(crate::specs::Parts::ksm_legal))]
pub(crate) fn is_ksm(ksm: &Ksm) -> bool
    ensures { result ≡ parts.ksm_legal ksm.now }
{
    is_kd(ksm.first) && is_maybe_kd(ksm.second) && is_maybe_date(ksm.edk) && is_count(ksm.ctp)
}
