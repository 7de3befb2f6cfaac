//! What a filing reports to its log about its drafts.

use crate::aside::SetAside;
use crate::location::Location;
use crate::stored_file::StoredFile;
use std::cell::Cell;
use std::io::Error;
use std::rt::Files;

/// The notes of a [`FolderFiling`](crate::FolderFiling) for its log. Who reads a note takes it.
#[derive(Drop)]
pub struct DraftNotes<R: Files + Alloc + Clone + Drop>
where
    R::File: StoredFile,
{
    /// The location of the last committed file.
    pub location: Cell<Option<Location>>,
    /// The error of the last failed call.
    pub error: Cell<Option<Error>>,
    /// The location after which few numbers remain. A folder has only one.
    pub low: Cell<Option<Location>>,
    /// The last draft that was moved to a quarantine.
    pub aside: Cell<Option<SetAside<R>>>,
    /// Why a draft could not be moved to a quarantine.
    pub aside_error: Cell<Option<Error>>,
}

impl<R: Files + Alloc + Clone + Drop> DraftNotes<R>
where
    R::File: StoredFile,
{
    /// Creates empty notes.
    pub(crate) fn new() -> DraftNotes<R> {
        DraftNotes {
            location: Cell::new(None),
            error: Cell::new(None),
            low: Cell::new(None),
            aside: Cell::new(None),
            aside_error: Cell::new(None),
        }
    }

    /// Records a draft that was moved to a quarantine. Removes the draft recorded before, if it was
    /// not taken.
    pub(crate) fn set_aside(&self, aside: SetAside<R>) {
        if let Some(before) = self.aside.replace(Some(aside)) {
            let _ = before.remove();
        }
    }
}
