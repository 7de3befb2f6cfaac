//! The rules for a single value of an element. The code calls a value between two backslashes of a
//! value field a part (PS3.5 section 6.4).
ghost use Rattle.std.specs.Prelude.{◌≡◌};
ghost use Rattle.std.specs.List.{list_all, slice_split};
ghost use Rattle.element.specs.Values as rules;

use crate::kinds::Kind;

/// A rule for each single value (part) of a value field.
#[derive(Clone, Copy)]
pub(crate) enum PartRule {
    /// A date has 8 bytes, an age 4.
    Size,
    /// The value is no longer than its VR allows: 12, 16 or 64 bytes.
    Longest,
    /// The value has only characters that its VR allows.
    Characters,
    /// Each component of a unique identifier is `0` or a number without leading zero.
    Form,
}

fn has_size(kind: Kind, part: &[u8]) -> bool
    ensures { result ≡ rules.has_size kind part.now }
{
    match kind {
        Kind::Date => part.len() == 8,
        Kind::Age => part.len() == 4,
        _ => true,
    }
}

fn is_short_enough(kind: Kind, part: &[u8]) -> bool
    ensures { result ≡ rules.is_short_enough kind part.now }
{
    match kind {
        Kind::Title | Kind::Code | Kind::Time | Kind::Decimal => part.len() <= 16,
        Kind::Integer => part.len() <= 12,
        Kind::Identifier => part.len() <= 64,
        _ => true,
    }
}

fn is_code_character(byte: u8) -> bool
    ensures { result ≡ rules.is_code_character byte }
{
    byte == b' ' || byte == b'_' || byte.is_ascii_uppercase() || byte.is_ascii_digit()
}

fn is_sign(byte: u8) -> bool
    ensures { result ≡ rules.is_sign byte }
{
    byte == b'+' || byte == b'-'
}

fn is_character(kind: Kind, byte: u8) -> bool
    ensures { result ≡ rules.is_character kind byte }
{
    match kind {
        Kind::Title => b' ' <= byte && byte <= b'~',
        Kind::Code => is_code_character(byte),
        Kind::Date => byte.is_ascii_digit(),
        Kind::Time => byte.is_ascii_digit() || byte == b'.' || byte == b':',
        Kind::Integer => byte.is_ascii_digit() || is_sign(byte),
        Kind::Decimal => byte.is_ascii_digit()
            || is_sign(byte)
            || byte == b'.'
            || byte == b'E'
            || byte == b'e',
        Kind::Identifier => byte.is_ascii_digit() || byte == b'.',
        _ => true,
    }
}

fn is_unit(byte: u8) -> bool
    ensures { result ≡ rules.is_unit byte }
{
    byte == b'D' || byte == b'W' || byte == b'M' || byte == b'Y'
}

fn is_age(part: &[u8]) -> bool
    ensures { result ≡ rules.is_age part.now }
{
    match part {
        [a, b, c, unit] => a.is_ascii_digit()
            && b.is_ascii_digit()
            && c.is_ascii_digit()
            && is_unit(*unit),
        _ => false,
    }
}

fn are_characters(kind: Kind, part: &[u8]) -> bool
    ensures { result ≡ list_all (rules.is_character kind) part.now }
{
    part.iter().all(|byte| is_character(kind, *byte))
}

fn has_characters(kind: Kind, part: &[u8]) -> bool
    ensures { result ≡ rules.has_characters kind part.now }
{
    match kind {
        Kind::Age => is_age(part),
        _ => are_characters(kind, part),
    }
}

fn is_component(text: &[u8]) -> bool
    ensures { result ≡ rules.is_component text.now }
{
    match text {
        [] => false,
        [_] => true,
        [first, ..] => *first != b'0',
    }
}

fn are_components(part: &[u8]) -> bool
    ensures { result ≡ list_all rules.is_component (slice_split rules.is_dot part.now) }
{
    part.split(|byte| *byte == b'.')
        .all(|text| is_component(text))
}

fn has_form(kind: Kind, part: &[u8]) -> bool
    ensures { result ≡ rules.has_form kind part.now }
{
    match kind {
        Kind::Identifier => are_components(part),
        _ => true,
    }
}

/// Returns whether a single value obeys a rule. An empty value obeys every rule.
pub(crate) fn obeys(rule: PartRule, kind: Kind, part: &[u8]) -> bool
    ensures { result ≡ rules.obeys rule kind part.now }
{
    part.is_empty()
        || match rule {
            PartRule::Size => has_size(kind, part),
            PartRule::Longest => is_short_enough(kind, part),
            PartRule::Characters => has_characters(kind, part),
            PartRule::Form => has_form(kind, part),
        }
}
