// The request that so many bytes are.
#![tactic(auto)]

ghost use Rattle.std.specs.Prelude.{◌≡◌, ◌+◌, ◌≤◌, length};
ghost use Rattle.octets.specs.Codec.{value_at};
ghost use Rattle.request.specs.Request as requests;

use calls::{Date, KeyRequest, Request};
use partner::Name;

// How many bytes a request has.
pub const SIZE: usize = 74;

// A request of no keys: zero throughout.
fn no_request() -> Request
    ensures { result ≡ requests.no_request }
{
    let key = KeyRequest {
        key: 0,
        flags: 0,
        name: Name::default(),
    };
    Request {
        count: 0,
        first: key,
        second: key,
        kind: 0,
        iv: 0,
        dated: 0,
        date: Date { digits: [0; 12] },
        notarized: 0,
    }
}

// A data key of a request, from a place on.
fn key_request_in(s: &[u8], at: usize) -> KeyRequest
    requires { at + 25 ≤ length s.now }
    ensures { result ≡ value_at requests.key_request_layout at s.now }
{
    KeyRequest {
        key: octets::number(&s[at..at + 8]),
        flags: s[at + 8],
        name: partner::name_of(&s[at + 9..at + 25]),
    }
}

// A date from a place on.
fn date_in(s: &[u8], at: usize) -> Date
    requires { at + 12 ≤ length s.now }
    ensures { result ≡ value_at requests.date_layout at s.now }
{
    let mut digits = [0; 12];
    digits.copy_from_slice(&s[at..at + 12]);
    Date { digits }
}

// The request of that length.
fn whole_in(s: &[u8]) -> Request
    requires { length s.now ≡ requests.request_size }
    ensures { result ≡ requests.whole_in s.now }
{
    Request {
        count: s[0],
        first: key_request_in(s, 1),
        second: key_request_in(s, 26),
        kind: s[51],
        iv: octets::number(&s[52..60]),
        dated: s[60],
        date: date_in(s, 61),
        notarized: s[73],
    }
}

// The request that the bytes are; of another length one of no keys.
#[tactic(auto, unfolding(crate::specs::Request::request_in))]
#[inline(never)]
pub fn request_in(s: &[u8]) -> Request
    ensures { result ≡ requests.request_in s.now }
{
    if s.len() == SIZE {
        whole_in(s)
    } else {
        no_request()
    }
}
