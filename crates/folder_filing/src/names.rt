//! The names of received files and of their subfolders: a letter and seven digits.
ghost use Rattle.std.specs.Prelude.{◌≡◌, ◌≤◌, IfSome, length};
ghost use Rattle.folder_filing.specs.EntryNames.{entry_number, first_letter, number_after};

use std::alloc::Allocator;
use std::fs::DirEntry;
use std::rt::Files;
use std::{fmt, io};

/// The kind of a name.
#[derive(Clone, Copy)]
pub enum EntryKind {
    /// A received file: `I` and seven digits.
    File,
    /// A subfolder of received files: `S` and seven digits.
    Folder,
}

/// Returns the value of seven decimal digits, or `None` if one of the bytes is no digit.
fn number_of(digits: &[u8]) -> Option<u32>
    requires seven { length digits.now ≡ 7 }
    ensures number { result ≡ number_after 0 digits.now }
    ensures most { IfSome result (λ n. n ≤ 9999999) }
{
    let mut number: u32 = 0;
    for byte in digits {
        if *byte < b'0' || *byte > b'9' {
            return None;
        }
        number = number * 10 + u32::from(*byte - b'0');
    }
    Some(number)
}

impl EntryKind {
    /// Returns the first letter of the names of this kind.
    fn letter(self) -> u8
        ensures { result ≡ first_letter self }
    {
        match self {
            EntryKind::File => b'I',
            EntryKind::Folder => b'S',
        }
    }

    /// Returns the name of this kind with this number.
    pub fn name(self, number: u32) -> EntryName {
        EntryName { kind: self, number }
    }

    /// Returns the number in a name of this kind, at most 9,999,999, or `None` if the name has
    /// another form.
    pub fn number_in(self, name: &str) -> Option<u32>
        ensures number { result ≡ entry_number self name.now }
        ensures most { IfSome result (λ n. n ≤ 9999999) }
    {
        self.number_in_bytes(name.as_bytes())
    }

    /// Returns the number in a name of this kind, as `number_in` does, from bytes.
    pub(crate) fn number_in_bytes(self, name: &[u8]) -> Option<u32>
        ensures number { result ≡ entry_number self name.now }
        ensures most { IfSome result (λ n. n ≤ 9999999) }
    {
        let (first, digits) = name.split_first()?;
        if *first != self.letter() || digits.len() != 7 {
            return None;
        }
        number_of(digits)
    }

    /// Returns the number in the name of a directory entry, or `None` if the name is not of this
    /// kind or, for a subfolder, the entry is no directory.
    ///
    /// Fails if the file type of the entry cannot be read.
    pub fn number_of<R: Files + Drop, A: Allocator>(
        self,
        entry: &DirEntry<R, A>,
    ) -> io::Result<Option<u32>> {
        let number = self.number_in(entry.file_name());
        if number.is_some() && matches!(self, EntryKind::Folder) && !entry.file_type()?.is_dir() {
            return Ok(None);
        }
        Ok(number)
    }
}

/// The name of a received file or of a subfolder.
#[derive(Clone, Copy)]
pub struct EntryName {
    pub kind: EntryKind,
    /// The number in the name, at most 9,999,999.
    pub number: u32,
}

/// Prints the letter and the seven digits, as `I0000001`.
impl fmt::Display for EntryName {
    fn fmt<W: fmt::Write>(&self, f: &mut fmt::Formatter<W>) -> fmt::Result {
        let letter = char::from(self.kind.letter());
        write!(f, "{letter}{:07}", self.number)
    }
}
