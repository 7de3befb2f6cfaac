//! The names of files in a quarantine: six digits and a suffix.

use std::alloc::{AllocError, Allocator};
use std::fmt;

/// The kind of a file in a quarantine.
#[derive(Clone, Copy, Debug, PartialEq, Eq)]
pub(crate) enum QuarantineKind {
    /// A draft that was moved there, and is neither kept nor removed yet: `.part`.
    Pending,
    /// A data set that is kept, with the head of its file: `.dcm`.
    Data,
    /// The text about a data set: `.txt`.
    Text,
}

impl QuarantineKind {
    /// Returns what follows the digits in a name of this kind.
    fn suffix(self) -> &'static str {
        match self {
            QuarantineKind::Pending => ".part",
            QuarantineKind::Data => ".dcm",
            QuarantineKind::Text => ".txt",
        }
    }

    /// Returns the number in a name of this kind, or `None` if the name has another form.
    fn number_in(self, name: &str) -> Option<u32> {
        let digits = name.strip_suffix(self.suffix())?;
        if digits.len() != 6 || !digits.bytes().all(|byte| byte.is_ascii_digit()) {
            return None;
        }
        digits.parse::<u32>().ok()
    }
}

/// The name of a file in a quarantine.
#[derive(Clone, Copy, Debug, PartialEq, Eq)]
pub(crate) struct QuarantineName {
    /// The number in the name, at most 999,999.
    pub(crate) number: u32,
    pub(crate) kind: QuarantineKind,
}

impl QuarantineName {
    /// Reads a name. Returns `None` if the name has another form.
    pub(crate) fn read(name: &str) -> Option<QuarantineName> {
        for kind in [
            QuarantineKind::Pending,
            QuarantineKind::Data,
            QuarantineKind::Text,
        ] {
            if let Some(number) = kind.number_in(name) {
                return Some(QuarantineName { number, kind });
            }
        }
        None
    }

    /// Returns the path of the file with this name in a folder.
    pub(crate) fn path<A: Allocator>(self, alloc: A, dir: &str) -> Result<String<A>, AllocError> {
        format!(in alloc; "{dir}/{self}")
    }
}

/// Prints the six digits and the suffix, as `000001.dcm`.
impl fmt::Display for QuarantineName {
    fn fmt<W: fmt::Write>(&self, f: &mut fmt::Formatter<W>) -> fmt::Result {
        write!(f, "{:06}{}", self.number, self.kind.suffix())
    }
}
