//! Texts as they are printed.
use element::{Tag, Vr};
use std::fmt;

/// Prints a tag: group and element in hexadecimal.
#[derive(Clone, Copy)]
pub struct TagText(pub Tag);

impl fmt::Display for TagText {
    fn fmt<W: fmt::Write>(&self, f: &mut fmt::Formatter<W>) -> fmt::Result {
        let TagText(Tag(group, element)) = *self;
        write!(f, "{group:04x},{element:04x}")
    }
}

/// Prints the letters of a VR, or `--` if it is unknown.
#[derive(Clone, Copy)]
pub struct VrText(pub Option<Vr>);

impl fmt::Display for VrText {
    fn fmt<W: fmt::Write>(&self, f: &mut fmt::Formatter<W>) -> fmt::Result {
        let VrText(vr) = *self;
        let [first, second] = match vr {
            Some(vr) => vr.letters(),
            None => *b"--",
        };
        f.write_char(char::from(first))?;
        f.write_char(char::from(second))
    }
}

/// Prints the indent of a line: two spaces for each open level.
#[derive(Clone, Copy)]
pub struct Indent(pub usize);

impl fmt::Display for Indent {
    fn fmt<W: fmt::Write>(&self, f: &mut fmt::Formatter<W>) -> fmt::Result {
        for _ in 0..self.0 {
            f.write_str("  ")?;
        }
        Ok(())
    }
}

/// Prints a path, with `?` for each byte that is not a printable ASCII character; or in UTF-8, with
/// `?` for each byte of a control character.
#[derive(Clone, Copy)]
pub struct PathText<'a> {
    pub path: &'a str,
    /// Whether characters beyond ASCII are printed.
    pub unicode: bool,
}

impl fmt::Display for PathText<'_> {
    fn fmt<W: fmt::Write>(&self, f: &mut fmt::Formatter<W>) -> fmt::Result {
        if !self.unicode {
            let path = Printable(self.path.as_bytes());
            return write!(f, "{path}");
        }
        for character in self.path.chars() {
            match character {
                '\0'..='\x1f' | '\x7f' => f.write_char('?')?,
                '\u{80}'..='\u{9f}' => f.write_str("??")?,
                _ => f.write_char(character)?,
            }
        }
        Ok(())
    }
}

/// Prints a text of a file, with `?` for each byte that is not a printable ASCII character.
#[derive(Clone, Copy)]
pub struct Printable<'a>(pub &'a [u8]);

impl fmt::Display for Printable<'_> {
    fn fmt<W: fmt::Write>(&self, f: &mut fmt::Formatter<W>) -> fmt::Result {
        for byte in self.0 {
            let is_printable = byte.is_ascii_graphic() || *byte == b' ';
            f.write_char(if is_printable { char::from(*byte) } else { '?' })?;
        }
        Ok(())
    }
}
