//! Prints text of a data set, in lines and as JSON strings, and paths as JSON strings.
use crate::options::OutputForm;
use std::fmt;
use values::Repertoire;

/// Prints bytes in hexadecimal, each after `%`.
fn write_escaped<W: fmt::Write>(f: &mut fmt::Formatter<W>, bytes: &[u8]) -> fmt::Result {
    for byte in bytes {
        write!(f, "%{:02x}", *byte)?;
    }
    Ok(())
}

/// Prints a character in a line or inside a JSON string. Control characters without a JSON escape
/// letter, and `%`, are printed as `%` and the hexadecimal digits of each UTF-8 byte.
fn write_character<W: fmt::Write>(
    f: &mut fmt::Formatter<W>,
    form: OutputForm,
    character: char,
) -> fmt::Result {
    match (form, character) {
        (OutputForm::Json, '"' | '\\') => write!(f, "\\{character}"),
        (OutputForm::Json, '\t') => f.write_str("\\t"),
        (OutputForm::Json, '\n') => f.write_str("\\n"),
        (OutputForm::Json, '\x0c') => f.write_str("\\f"),
        (OutputForm::Json, '\r') => f.write_str("\\r"),
        (_, '\0'..='\x1f' | '%' | '\x7f') => write!(f, "%{:02x}", u32::from(character)),
        (_, '\u{80}'..='\u{9f}') => write!(f, "%c2%{:02x}", u32::from(character)),
        _ => f.write_char(character),
    }
}

/// Prints text in UTF-8.
fn write_utf8<W: fmt::Write>(
    f: &mut fmt::Formatter<W>,
    form: OutputForm,
    text: &[u8],
) -> fmt::Result {
    for chunk in text.utf8_chunks() {
        for character in chunk.valid().chars() {
            write_character(f, form, character)?;
        }
        write_escaped(f, chunk.invalid())?;
    }
    Ok(())
}

/// Prints text in a single-byte character set; bytes without a character are escaped.
fn write_bytes<W: fmt::Write>(
    f: &mut fmt::Formatter<W>,
    form: OutputForm,
    repertoire: Repertoire,
    text: &[u8],
) -> fmt::Result {
    for byte in text {
        let character = if byte.is_ascii() {
            Some(char::from(*byte))
        } else {
            repertoire.letter(*byte)
        };
        match character {
            Some(character) => write_character(f, form, character)?,
            None => write_escaped(f, &[*byte])?,
        }
    }
    Ok(())
}

/// Prints text of a repertoire in UTF-8, in a line or inside a JSON string. `%` and two hexadecimal
/// digits stand for each byte that is no character of the repertoire, for control characters
/// without a JSON escape letter, and for `%`.
pub(crate) fn write_text<W: fmt::Write>(
    f: &mut fmt::Formatter<W>,
    form: OutputForm,
    repertoire: Repertoire,
    text: &[u8],
) -> fmt::Result {
    match repertoire {
        Repertoire::Utf8 => write_utf8(f, form, text),
        _ => write_bytes(f, form, repertoire, text),
    }
}

/// Prints a text of a repertoire as a JSON string, or as `null` if it is empty.
#[derive(Clone, Copy)]
pub struct JsonText<'a>(pub &'a [u8], pub Repertoire);

impl<'a> JsonText<'a> {
    /// Returns the JSON form of an ASCII text.
    pub fn ascii(text: &'a [u8]) -> JsonText<'a> {
        JsonText(text, Repertoire::Ascii)
    }
}

impl fmt::Display for JsonText<'_> {
    fn fmt<W: fmt::Write>(&self, f: &mut fmt::Formatter<W>) -> fmt::Result {
        if self.0.is_empty() {
            return f.write_str("null");
        }
        f.write_char('"')?;
        write_text(f, OutputForm::Json, self.1, self.0)?;
        f.write_char('"')
    }
}

/// Prints a path as a JSON string.
#[derive(Clone, Copy)]
pub struct JsonPath<'a>(pub &'a str);

impl fmt::Display for JsonPath<'_> {
    fn fmt<W: fmt::Write>(&self, f: &mut fmt::Formatter<W>) -> fmt::Result {
        f.write_char('"')?;
        for character in self.0.chars() {
            match character {
                '"' | '\\' => write!(f, "\\{character}")?,
                '\0'..='\x1f' | '\x7f' => write!(f, "\\u{:04x}", u32::from(character))?,
                _ => f.write_char(character)?,
            }
        }
        f.write_char('"')
    }
}
