//! Drafts that were moved to a quarantine.

use crate::quarantine::Quarantine;
use crate::stored_file::StoredFile;
use std::io;
use std::rc::Rc;
use std::rt::Files;

/// A draft that is kept in a quarantine.
#[derive(Clone, Copy, Debug, PartialEq, Eq)]
pub struct KeptDraft {
    /// The number in the names of its files: `000001.dcm` and `000001.txt` for 1.
    pub number: u32,
    /// Whether the quarantine now has as many data sets as it may have.
    pub is_full: bool,
}

/// A draft that was not committed and whose file was moved to a quarantine. It must be kept or
/// removed; else its file stays in the quarantine until that is opened again.
#[derive(Drop)]
pub struct SetAside<R: Files + Alloc + Clone + Drop>
where
    R::File: StoredFile,
{
    quarantine: Rc<Quarantine<R>, R::A>,
    number: u32,
    data: u64,
}

impl<R: Files + Alloc + Clone + Drop> SetAside<R>
where
    R::File: StoredFile,
{
    /// Creates a value for the draft with this number, whose data set has this many bytes.
    pub(crate) fn new(quarantine: Rc<Quarantine<R>, R::A>, number: u32, data: u64) -> SetAside<R> {
        SetAside {
            quarantine,
            number,
            data,
        }
    }

    /// Returns the number of bytes of the data set in the file.
    pub fn data(&self) -> u64 {
        self.data
    }

    /// Keeps the draft, with this text in a file next to it.
    ///
    /// Fails if a system call fails, the folder was replaced by another one, or a file has one of
    /// the names. Then the draft is removed.
    pub fn keep(self, text: &str) -> io::Result<KeptDraft> {
        let is_full = self.quarantine.keep(self.number, text)?;
        Ok(KeptDraft {
            number: self.number,
            is_full,
        })
    }

    /// Removes the draft. Fails if a system call fails.
    pub fn remove(self) -> io::Result<()> {
        self.quarantine.remove(self.number)
    }
}
