//! The characters that the bytes of texts encode (PS3.3 section C.12.1.1.2).
ghost use Rattle.std.specs.Prelude.{◌≡◌};
ghost use Rattle.values.specs.Repertoires as repertoires;

use crate::letters;
use element::without_trailing_spaces;

/// A part of ISO 8859: a character set of one byte for each character, with ASCII below 80H.
#[derive(Clone, Copy, Debug, PartialEq, Eq)]
pub enum Part {
    /// ISO 8859-1.
    Latin1,
    /// ISO 8859-2.
    Latin2,
    /// ISO 8859-3.
    Latin3,
    /// ISO 8859-4.
    Latin4,
    /// ISO 8859-5.
    Cyrillic,
    /// ISO 8859-6.
    Arabic,
    /// ISO 8859-7.
    Greek,
    /// ISO 8859-8.
    Hebrew,
    /// ISO 8859-9.
    Latin5,
    /// ISO 8859-11.
    Thai,
    /// ISO 8859-15.
    Latin9,
}

impl Part {
    /// Returns the part that a defined term names, or `None` for any other term.
    fn of_term(term: &[u8]) -> Option<Part>
        ensures { result ≡ repertoires.part_of_term term.now }
    {
        if term == b"ISO_IR 100".as_slice() {
            Some(Part::Latin1)
        } else if term == b"ISO_IR 101".as_slice() {
            Some(Part::Latin2)
        } else if term == b"ISO_IR 109".as_slice() {
            Some(Part::Latin3)
        } else if term == b"ISO_IR 110".as_slice() {
            Some(Part::Latin4)
        } else if term == b"ISO_IR 144".as_slice() {
            Some(Part::Cyrillic)
        } else if term == b"ISO_IR 127".as_slice() {
            Some(Part::Arabic)
        } else if term == b"ISO_IR 126".as_slice() {
            Some(Part::Greek)
        } else if term == b"ISO_IR 138".as_slice() {
            Some(Part::Hebrew)
        } else if term == b"ISO_IR 148".as_slice() {
            Some(Part::Latin5)
        } else if term == b"ISO_IR 166".as_slice() {
            Some(Part::Thai)
        } else if term == b"ISO_IR 203".as_slice() {
            Some(Part::Latin9)
        } else {
            None
        }
    }

    /// Returns the characters of the bytes from A0H on; NUL stands for none.
    fn letters(self) -> &'static [char]
        ensures { result.now ≡ repertoires.letters_of self }
    {
        match self {
            Part::Latin1 => &letters::LATIN1,
            Part::Latin2 => &letters::LATIN2,
            Part::Latin3 => &letters::LATIN3,
            Part::Latin4 => &letters::LATIN4,
            Part::Cyrillic => &letters::CYRILLIC,
            Part::Arabic => &letters::ARABIC,
            Part::Greek => &letters::GREEK,
            Part::Hebrew => &letters::HEBREW,
            Part::Latin5 => &letters::LATIN5,
            Part::Thai => &letters::THAI,
            Part::Latin9 => &letters::LATIN9,
        }
    }

    /// Returns the character of a byte from A0H on, or `None` if there is none.
    fn letter(self, byte: u8) -> Option<char>
        ensures { result ≡ repertoires.letter_of self byte }
    {
        let letters = self.letters();
        let position = usize::from(byte.checked_sub(0xa0)?);
        match letters.get(position) {
            Some('\0') | None => None,
            Some(letter) => Some(*letter),
        }
    }
}

/// The characters that the bytes of a text encode.
#[derive(Clone, Copy, Debug, PartialEq, Eq)]
pub enum Repertoire {
    /// ASCII.
    Ascii,
    /// A part of ISO 8859.
    Iso8859(Part),
    /// UTF-8.
    Utf8,
    /// Any other, of which only the characters of ASCII are known.
    Other,
}

impl Repertoire {
    /// Returns the repertoire that a value of Specific Character Set names.
    pub fn of_value(value: &[u8]) -> Repertoire
        ensures { result ≡ repertoires.of_value value.now }
    {
        let term = without_trailing_spaces(value);
        if term.is_empty() || term == b"ISO_IR 6".as_slice() {
            return Repertoire::Ascii;
        }
        if term == b"ISO_IR 192".as_slice() {
            return Repertoire::Utf8;
        }
        match Part::of_term(term) {
            Some(part) => Repertoire::Iso8859(part),
            None => Repertoire::Other,
        }
    }

    /// Returns the character that this byte, from A0H on, encodes in a part of ISO 8859, or `None`
    /// for any other byte or repertoire.
    pub fn letter(self, byte: u8) -> Option<char>
        ensures { result ≡ repertoires.letter self byte }
    {
        match self {
            Repertoire::Iso8859(part) => part.letter(byte),
            _ => None,
        }
    }
}
