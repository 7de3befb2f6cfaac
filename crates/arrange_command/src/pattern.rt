//! The pattern of the paths of files in the tree.
ghost use Rattle.std.specs.Prelude.{◌≡◌, ◌<◌, ◌≤◌, ◌∷◌, ◌++◌, [], IfOk, IsOk, All, length, true};
ghost use Rattle.std.specs.List.{flat_map, list_all, slice_split};
ghost use Rattle.arrange_command.specs.Patterns.{IsPart, IsRead, IsSplit, is_literal as is_literal_byte, is_name, is_slash, spelled, tags_in};

use element::Tag;
use failures::WordsError;
use inspection::tag_named;
use keyed_files::is_text_element;
use std::alloc::{AllocError, Allocator, Global};
use std::str;

/// The greatest number of names in a pattern, separated by slashes.
const MOST_NAMES: usize = 8;

/// The greatest number of values in a pattern. [`FileKeys`](keyed_files::FileKeys) has room for
/// more.
const MOST_VALUES: usize = 16;

/// A part of a pattern.
#[derive(Clone, Copy)]
pub enum Part<'a> {
    /// The slash between two names.
    Slash,
    /// A byte of a name.
    Byte(u8),
    /// The value of an element, with the text that names the element and its tag.
    Value(&'a [u8], Tag),
}

/// Returns whether a byte may stand in a name of a pattern: a letter, a digit, `_`, `-`, `.` or a
/// space.
fn is_literal(byte: u8) -> bool
    ensures { result ≡ is_literal_byte byte }
{
    byte.is_ascii_alphanumeric() || byte == b'_' || byte == b'-' || byte == b'.' || byte == b' '
}

/// Returns whether a text between slashes may be a name of a pattern: it is not empty and does not
/// begin with a dot.
fn may_be_name(text: &[u8]) -> bool
    ensures { result ≡ is_name text.now }
{
    match text {
        [] => false,
        [first, ..] => *first != b'.',
    }
}

/// Returns whether each text between slashes may be a name of a pattern.
fn has_names(pattern: &[u8]) -> bool
    ensures { result ≡ list_all is_name (slice_split is_slash pattern.now) }
{
    pattern
        .split(|byte| *byte == b'/')
        .all(|text| may_be_name(text))
}

/// Returns the number of names of a pattern.
fn names_in(pattern: &[u8]) -> usize
    ensures { result ≡ length (slice_split is_slash pattern.now) }
{
    pattern.split(|byte| *byte == b'/').count()
}

/// Returns the error for a pattern, with this text.
fn refused(alloc: Global, text: &str) -> WordsError {
    match format!(in alloc; "error: --pattern {text}\n") {
        Ok(text) => WordsError::Refused(text),
        Err(error) => WordsError::Memory(error),
    }
}

/// Returns the error for a text of a pattern that names no element with a value of text.
fn no_element(alloc: Global, text: &str) -> WordsError {
    let also = match tag_named(text) {
        Some(_) => "of the data set whose value is text, ",
        None => "",
    };
    match format!(in alloc; "takes an element {also}as 0010,0020 or PatientID, not '{text}'") {
        Ok(text) => refused(alloc, text.as_str()),
        Err(error) => WordsError::Memory(error),
    }
}

/// Returns the error for a pattern that has a character that may not stand there.
fn no_literal(alloc: Global, rest: &[u8]) -> WordsError {
    let character = match str::from_utf8(rest) {
        Ok(text) => text.chars().next().unwrap_or('?'),
        Err(_) => '?',
    };
    match format!(in alloc;
        "takes letters, digits, '_', '-', '.', ' ', '/' and elements in braces, not '{character}'"
    ) {
        Ok(text) => refused(alloc, text.as_str()),
        Err(error) => WordsError::Memory(error),
    }
}

/// Returns the element that a text between braces names, as a part. Fails with a text for the user
/// if the text names no element of the data set whose value is text.
fn value_named<'a>(alloc: Global, name: &'a [u8]) -> Result<Part<'a>, WordsError>
    ensures named { IfOk result (λ part. (spelled part ≡ 123 ∷ name.now ++ 125 ∷ []) × IsPart part) }
{
    let Ok(text) = str::from_utf8(name) else {
        return Err(no_element(alloc, "?"));
    };
    match tag_named(text) {
        Some(tag) if is_text_element(tag) => Ok(Part::Value(name, tag)),
        _ => Err(no_element(alloc, text)),
    }
}

/// Splits an element off the front of a pattern, after the brace that begins it. Fails with a text
/// for the user if no brace ends it or it is invalid.
fn split_value<'a>(alloc: Global, text: &'a [u8]) -> Result<(Part<'a>, &'a [u8]), WordsError>
    ensures { IfOk result (λ split. IsSplit (123 ∷ text.now) split.0 split.1.now) }
{
    let end = text
        .iter()
        .position(|byte| *byte == b'}')
        .unwrap_or(text.len());
    let (name, after) = text.split_at(end);
    match after.split_first() {
        Some((brace, rest)) if *brace == b'}' => Ok((value_named(alloc, name)?, rest)),
        _ => Err(refused(alloc, "takes a } after each {")),
    }
}

/// Splits the first part off a pattern. Fails with a text for the user if it is invalid.
fn split_part<'a>(alloc: Global, text: &'a [u8]) -> Result<(Part<'a>, &'a [u8]), WordsError>
    requires { 0 < length text.now }
    ensures { IfOk result (λ split. IsSplit text.now split.0 split.1.now) }
{
    let rest = &text[1..];
    match text[0] {
        b'/' => Ok((Part::Slash, rest)),
        b'{' => split_value(alloc, rest),
        byte if is_literal(byte) => Ok((Part::Byte(byte), rest)),
        _ => Err(no_literal(alloc, text)),
    }
}

/// Splits a pattern into its parts. Fails with a text for the user if one is invalid.
fn parts_of<'a>(alloc: Global, pattern: &'a [u8]) -> Result<Vec<Part<'a>>, WordsError>
    ensures { IfOk result (λ parts. IsRead pattern.now parts.items) }
{
    let mut parts = Vec::new(alloc);
    let mut rest = pattern;
    for consumed in 0..pattern.len() {
        if rest.is_empty() {
            break;
        }
        let (part, more) = split_part(alloc, rest)?;
        parts.push(part)?;
        rest = more;
    }
    Ok(parts)
}

/// Returns the tags of the values in a pattern.
pub(crate) fn tags_of<A: Allocator>(
    alloc: A,
    pattern: &[Part<'_>],
) -> Result<Vec<Tag, A>, AllocError>
    ensures { IfOk result (λ tags. tags.items ≡ flat_map tags_in pattern.now) }
{
    let mut tags = Vec::new(alloc);
    for part in pattern {
        if let Part::Value(_, tag) = part {
            tags.push(*tag)?;
        }
    }
    Ok(tags)
}

/// Reads the pattern of the paths of files: names of letters, digits, `_`, `-`, `.`, spaces and
/// elements in braces, with slashes between them.
///
/// Fails with a text for the user for any other character, an element that is unknown or whose
/// value is no text, a name that is empty or begins with a dot, more than 8 names, no element, or
/// more than 16 elements.
pub fn read_pattern<'a>(alloc: Global, text: &'a str) -> Result<Vec<Part<'a>>, WordsError>
    ensures parts { IfOk result (λ parts. IsRead text.now parts.items) }
    ensures names { IsOk result → list_all is_name (slice_split is_slash text.now) ≡ true }
    ensures few { IsOk result → length (slice_split is_slash text.now) ≤ 8 }
    ensures some { IfOk result (λ parts. 0 < length (flat_map tags_in parts.items)) }
    ensures values { IfOk result (λ parts. length (flat_map tags_in parts.items) ≤ 16) }
{
    let parts = parts_of(alloc, text.as_bytes())?;
    if !has_names(text.as_bytes()) {
        let text = "takes names that are not empty and begin with no dot, with '/' between them";
        return Err(refused(alloc, text));
    }
    let values = tags_of(alloc, parts.as_slice())?.len();
    if values == 0 {
        return Err(refused(
            alloc,
            "takes at least one element in braces, as {PatientID}",
        ));
    }
    if names_in(text.as_bytes()) > MOST_NAMES || values > MOST_VALUES {
        return Err(refused(alloc, "takes 8 names and 16 elements at most"));
    }
    Ok(parts)
}
