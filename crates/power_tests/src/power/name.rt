//! Names of files and folders.

/// A name of at most eight bytes, padded with zeros.
#[derive(Clone, Copy, PartialEq, Eq)]
pub(crate) struct Name([u8; 8]);

impl Name {
    /// Returns this name, or `None` if it has more than eight bytes.
    pub(crate) fn of(text: &str) -> Option<Name> {
        if text.len() > 8 {
            return None;
        }
        let mut name = [0; 8];
        for (to, from) in name.iter_mut().zip(text.as_bytes()) {
            *to = *from;
        }
        Some(Name(name))
    }

    /// Returns the bytes of the name, padded with zeros.
    pub(crate) fn padded(self) -> [u8; 8] {
        self.0
    }

    /// Returns whether this is the name of a draft: `DRAFT` with or without digits.
    pub(crate) fn is_draft(self) -> bool {
        let name = &self.0[..];
        name.starts_with(b"DRAFT")
            && name[5..]
                .iter()
                .all(|byte| *byte == 0 || byte.is_ascii_digit())
    }

    /// Returns the number in a name of this letter and seven digits.
    pub(crate) fn number(self, letter: u8) -> Option<u32> {
        if self.0[0] != letter {
            return None;
        }
        let mut number = 0u32;
        for digit in &self.0[1..] {
            if !digit.is_ascii_digit() {
                return None;
            }
            number = number
                .saturating_mul(10)
                .saturating_add(u32::from(*digit - b'0'));
        }
        Some(number)
    }
}
