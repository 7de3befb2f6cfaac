//! Reads tags from a command line.
ghost use Rattle.std.specs.Prelude.{◌≡◌, ◌<◌, true, Some, IfSome};
ghost use Rattle.inspection.specs.NamedTag as named;

use element::Tag;
use keywords::element_digits;

/// Returns whether a byte is a hexadecimal digit.
fn is_digit(byte: u8) -> bool
    ensures { result ≡ named.is_digit byte }
{
    b'0' <= byte && byte <= b'9' || b'a' <= byte && byte <= b'f' || b'A' <= byte && byte <= b'F'
}

/// Returns the value of a hexadecimal digit.
fn digit_of(byte: u8) -> u16
    requires { named.is_digit byte ≡ true }
    ensures value { result ≡ named.digit_of byte }
    ensures bound { result < 16 }
{
    if byte <= b'9' {
        u16::from(byte - b'0')
    } else if byte <= b'F' {
        u16::from(byte - b'A') + 10
    } else {
        u16::from(byte - b'a') + 10
    }
}

/// Returns the number that four hexadecimal digits spell, or `None` for other bytes.
fn number_of(digits: &[u8]) -> Option<u16>
    ensures { result ≡ named.number_of digits.now }
{
    match digits {
        [a, b, c, d] if is_digit(*a) && is_digit(*b) && is_digit(*c) && is_digit(*d) => {
            let high = digit_of(*a) * 16 + digit_of(*b);
            let low = digit_of(*c) * 16 + digit_of(*d);
            Some(high * 256 + low)
        }
        _ => None,
    }
}

/// Returns the tag whose group and element these digits spell, or `None` if either is invalid.
fn tag_of(group: &[u8], element: &[u8]) -> Option<Tag>
    ensures { result ≡ named.tag_of group.now element.now }
{
    let group = number_of(group)?;
    let element = number_of(element)?;
    Some(Tag(group, element))
}

/// Returns the tag that a text spells in hexadecimal, as `00100020`, `0010,0020` or `(0010,0020)`,
/// or `None`.
pub fn tag_spelled(text: &[u8]) -> Option<Tag>
    ensures { result ≡ named.tag_spelled text.now }
{
    if text.len() == 8 {
        tag_of(&text[..4], &text[4..])
    } else if text.len() == 9 && text[4] == b',' {
        tag_of(&text[..4], &text[5..])
    } else if text.len() == 11 && text[0] == b'(' && text[5] == b',' && text[10] == b')' {
        tag_of(&text[1..5], &text[6..10])
    } else {
        None
    }
}

/// Returns the tag that a text spells (see `tag_spelled`), or else the tag with this keyword
/// (PS3.6), or `None` if no tag or several have the keyword.
pub fn tag_named(text: &str) -> Option<Tag>
    ensures { IfSome (named.tag_spelled text.now) (λ tag. result ≡ Some tag) }
{
    match tag_spelled(text.as_bytes()) {
        Some(tag) => Some(tag),
        None => tag_spelled(element_digits(text)?.as_bytes()),
    }
}
