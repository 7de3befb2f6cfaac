//! The characters that texts may have (PS3.5 table 6.2-1).
ghost use Rattle.std.specs.Prelude.{◌≡◌};
ghost use Rattle.std.specs.List.{list_all};
ghost use Rattle.values.specs.Texts as texts;

/// Returns whether a string may have a byte: it is ESC or not a control character.
fn is_string_character(byte: u8) -> bool
    ensures { result ≡ texts.is_string_character byte }
{
    byte == 27 || 32 <= byte && byte != 127
}

/// Returns whether a text of several lines may have a byte: one of a string, or TAB, LF, FF or CR.
fn is_line_character(byte: u8) -> bool
    ensures { result ≡ texts.is_line_character byte }
{
    is_string_character(byte) || byte == 9 || byte == 10 || byte == 12 || byte == 13
}

/// Returns whether a byte is a printable character that a URI may not have: `"`, `<`, `>`, `\`,
/// `^`, a backtick, `{`, `|` or `}`.
fn is_unsafe(byte: u8) -> bool
    ensures { result ≡ texts.is_unsafe byte }
{
    byte == b'"'
        || byte == b'<'
        || byte == b'>'
        || byte == b'\\'
        || byte == b'^'
        || byte == b'`'
        || byte == b'{'
        || byte == b'|'
        || byte == b'}'
}

/// Returns whether a URI may have a byte (RFC 3986 section 2).
fn is_locator_character(byte: u8) -> bool
    ensures { result ≡ texts.is_locator_character byte }
{
    33 <= byte && byte <= 126 && !is_unsafe(byte)
}

/// Returns whether a string may have all of these bytes.
pub(crate) fn is_string(text: &[u8]) -> bool
    ensures { result ≡ list_all texts.is_string_character text.now }
{
    text.iter().all(|byte| is_string_character(*byte))
}

/// Returns whether a text of several lines may have all of these bytes.
pub(crate) fn are_lines(text: &[u8]) -> bool
    ensures { result ≡ list_all texts.is_line_character text.now }
{
    text.iter().all(|byte| is_line_character(*byte))
}

/// Returns whether a URI may have all of these bytes.
pub(crate) fn is_locator(text: &[u8]) -> bool
    ensures { result ≡ list_all texts.is_locator_character text.now }
{
    text.iter().all(|byte| is_locator_character(*byte))
}
