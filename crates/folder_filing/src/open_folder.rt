//! An open folder, with the number in its path.
ghost use Rattle.std.specs.Prelude.{◌≡◌, IfOk, true};

use crate::folder_identity::{FolderIdentity, NumberedFolder};
use crate::listing::folder_path;
use crate::stored_file::StoredFile;
use std::fs::{OpenFile, TryLockError};
use std::io::{Error, ErrorKind};
use std::marker::Model;
use std::rt::Files;
use std::{fs, io};

/// The open folder of the files, or a subfolder of it. Its value in contracts is its number with
/// its identity.
#[derive(Drop)]
pub(crate) struct OpenFolder<F: Drop> {
    folder: NumberedFolder,
    file: F,
}

impl<F: Drop> Model for OpenFolder<F> {
    ghost use Rattle.folder_filing.specs.declared.folder_identity.NumberedFolder.{NumberedFolder as Numbered};

    ghost Value = { Numbered };

    ghost view = { λ f. f.folder };
}

fn open<R: Files>(rt: &R, path: &str, number: u32) -> io::Result<OpenFolder<R::File>>
    ensures { IfOk result (λ f. f.number ≡ number) }
{
    let file = fs::open(rt, path)?;
    let identity = FolderIdentity::of(&file.metadata()?);
    let folder = NumberedFolder { number, identity };
    Ok(OpenFolder { folder, file })
}

/// Opens the folder of the files or a quarantine, and locks it.
///
/// Fails with `WouldBlock` if another writer has locked it, and if it was replaced by another
/// folder before it was locked.
pub(crate) fn lock<R: Files>(rt: &R, dir: &str) -> io::Result<OpenFolder<R::File>>
where
    R::File: StoredFile,
    ensures { IfOk result (λ f. f.number ≡ 0) }
{
    let folder = open(rt, dir, 0)?;
    match folder.file.try_lock() {
        Ok(()) => {}
        Err(TryLockError::WouldBlock) => {
            return Err(Error::new(
                ErrorKind::WouldBlock,
                "the folder is in use by another writer",
            ));
        }
        Err(TryLockError::Error(error)) => return Err(error),
    }
    folder.identity().check_at(rt, dir)?;
    Ok(folder)
}

/// Opens the subfolder with this number of the folder at a path.
pub(crate) fn open_subfolder<R: Files + Alloc>(
    rt: &R,
    dir: &str,
    number: u32,
) -> io::Result<OpenFolder<R::File>>
    ensures { IfOk result (λ f. f.number ≡ number) }
{
    let path = folder_path(rt.alloc(), dir, number)?;
    open(rt, path.as_str(), number)
}

impl<F: Drop> OpenFolder<F> {
    pub(crate) fn numbered(&self) -> NumberedFolder
        ensures { result ≡ self.now }
    {
        self.folder
    }

    pub(crate) fn identity(&self) -> FolderIdentity
        ensures { result ≡ self.now.identity }
    {
        self.folder.identity
    }

    /// Returns whether both are the same folder. A subfolder that replaced one that was moved away
    /// has the same number, but is another folder.
    pub(crate) fn is(&self, other: &OpenFolder<F>) -> bool
        ensures { result ≡ true → self.now ≡ other.now }
    {
        self.folder == other.folder
    }

    /// Syncs the folder to the disk.
    pub(crate) fn sync(&self) -> io::Result<()>
    where
        F: OpenFile,
    {
        self.file.sync_all()
    }
}
