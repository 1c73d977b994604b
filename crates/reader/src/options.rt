// Options: after the head a rest that is kept as text.
ghost use Rattle.std.specs.Prelude.{◌≡◌, drop};
ghost use Rattle.std.specs.List.{list_any};
ghost use Rattle.octets.specs.Text.{all, starts};
ghost use Rattle.csm.specs.Message.{text_char, is_option};
ghost use Rattle.reader.specs.Stages as stages;

use super::{Head, Message, Rest};
use fields::Class;
use octets::Span;

// Whether b is a character of a message other than its parentheses.
fn is_text_char(b: u8) -> bool
    ensures { result ≡ text_char b }
{
    matches!(b, b' ' | b'*' | b'-'..=b'9' | b'A'..=b'Z')
}

// Whether all of s are such characters.
fn is_text(s: &[u8]) -> bool
    ensures { result ≡ all text_char s.now }
{
    s.iter().all(|b| is_text_char(*b))
}

// Whether s is such characters and ends in a blank, or is empty.
fn is_rest(s: &[u8]) -> bool
    ensures { result ≡ stages.any_rest s.now }
{
    if !is_text(s) {
        return false;
    }
    match s.last() {
        Some(b) => *b == b' ',
        None => true,
    }
}

// A rest up to the closing parenthesis that ends the text.
pub fn rest_at(text: &[u8], at: usize, class: Class, head: Head) -> Option<Message>
    ensures { result ≡ stages.rest_body class head at (drop at text.now) }
{
    let rest = text.get(at..)?;
    let end = octets::until(rest, 0, b')');
    if rest.len() != end + 1 {
        return None;
    }
    if !is_rest(&rest[..end]) {
        return None;
    }
    Some(Message::Option(Rest {
        head,
        class,
        rest: Span { at, length: end },
    }))
}

// Whether one of the tags stands there.
fn starts_any(text: &[u8], at: usize, tags: &[&[u8]]) -> bool
    ensures { result ≡ list_any (λ tag. starts tag.now (drop at text.now)) tags.now }
{
    tags.iter().any(|tag| octets::starts(text, at, tag))
}

// Whether what stands there behind the head makes a message of that class an option.
pub fn is_option(text: &[u8], at: usize, class: Class) -> bool
    ensures { result ≡ is_option (stages.class_named class) (drop at text.now) }
{
    match class {
        Class::Rsi => starts_any(text, at, &[b"IDU/", b"IDC/"]),
        Class::Ksm => starts_any(
            text,
            at,
            &[b"IDC/", b"KK/", b"*KK/", b"KKU/", b"*KKU/", b"KDU/"],
        ),
        Class::Rsm | Class::Esm => false,
        Class::Dsm | Class::Ers | Class::Rfs | Class::Rtr => true,
    }
}
