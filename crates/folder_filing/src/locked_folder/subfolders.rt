//! The subfolders of a locked folder.
ghost use Rattle.std.specs.Prelude.{◌≡◌, ◌∷◌, None, Some, IfOk, IfSome, OnOk, OnErr};
ghost use Rattle.folder_filing.specs.declared.call.Call.TheVariants as seen;
ghost use Rattle.folder_filing.specs.declared.naming.Named.TheVariants as how;

use super::LockedFolder;
use crate::entered_file::SyncedEntry;
use crate::folder_calls::FolderCalls;
use crate::folder_identity::FolderIdentity;
use crate::listing::folder_path;
use crate::named_file::NamedFile;
use crate::names::EntryKind;
use crate::naming::{Named, Target};
use crate::open_folder::{OpenFolder, open_subfolder};
use crate::stored_file::StoredFile;
use std::alloc::Allocator;
use std::io;
use std::io::{Error, ErrorKind};
use std::rt::Files;

/// Returns the error for a subfolder that cannot be created, with its name in the message.
fn unmade<A: Allocator>(alloc: A, folder: u32, error: &Error) -> Error {
    let name = EntryKind::Folder.name(folder);
    match format!(in alloc; "the folder {name} can't be made: {error}") {
        Ok(text) => Error::new(error.kind(), text.as_str()),
        Err(failed) => Error::from(failed),
    }
}

impl<R: Files + Alloc + Clone + Drop> LockedFolder<R>
where
    R::File: StoredFile,
{
    /// Creates the subfolder with this number, unless something has its name.
    ///
    /// Fails, with the subfolder's name in the message, if the system call fails.
    pub(super) fn make_folder(&self, folder: u32, calls: &mut FolderCalls) -> io::Result<()>
        ensures unchanged { OnOk result (calls.new ≡ calls.old) }
        ensures refused { OnErr result (calls.new ≡ seen.Refused ∷ calls.old) }
    {
        let path = calls.text(folder_path(self.rt.alloc(), self.dir.as_str(), folder))?;
        self.entered.set(None);
        match calls.create_folder(&self.rt, path.as_str()) {
            Ok(()) => Ok(()),
            Err(error) => Err(unmade(self.rt.alloc(), folder, &error)),
        }
    }

    /// Returns the identity of the subfolder in which a file is about to be named, or `None` if
    /// there is none. Without syncs it is always `None`.
    pub(super) fn folder_before(
        &self,
        target: Target<'_>,
        calls: &mut FolderCalls,
    ) -> io::Result<Option<FolderIdentity>>
        ensures unchanged { OnOk result (calls.new ≡ calls.old) }
        ensures refused { OnErr result (calls.new ≡ seen.Refused ∷ calls.old) }
    {
        let number = target.location.folder;
        if number == 0 || !target.has_sync {
            return Ok(None);
        }
        let path = calls.text(folder_path(self.rt.alloc(), self.dir.as_str(), number))?;
        match FolderIdentity::at(&self.rt, path.as_str()) {
            Ok(identity) => Ok(Some(identity)),
            Err(error) if error.kind() == ErrorKind::NotFound => Ok(None),
            Err(error) => calls.passed(Err(error)),
        }
    }

    /// Opens the subfolder in which a file was just named. Returns `None` if no subfolder has its
    /// number now, or another one than right before the file was named: no system call shows which
    /// one has the file.
    ///
    /// Fails in that case if the file was renamed, since it has no other name, and if a system call
    /// fails.
    pub(super) fn open_subfolder(
        &self,
        file: NamedFile,
        calls: &mut FolderCalls,
    ) -> io::Result<Option<OpenFolder<R::File>>>
        ensures number { IfOk result (λ opened. IfSome opened (λ folder. folder.number ≡ file.location.folder)) }
        ensures same { IfOk result (λ opened. IfSome opened (λ folder. file.folder ≡ Some folder.identity)) }
        ensures moved { IfOk result (λ opened. opened ≡ None → file.how ≡ how.Linked) }
        ensures unchanged { OnOk result (calls.new ≡ calls.old) }
        ensures refused { OnErr result (calls.new ≡ seen.Refused ∷ calls.old) }
    {
        let number = file.location().folder;
        match open_subfolder(&self.rt, self.dir.as_str(), number) {
            Ok(folder) if file.folder() == Some(folder.identity()) => Ok(Some(folder)),
            Err(error) if error.kind() != ErrorKind::NotFound => calls.passed(Err(error)),
            _ => match file.how() {
                Named::Linked => Ok(None),
                Named::Renamed => calls.passed(Err(FolderIdentity::replaced())),
            },
        }
    }

    /// Syncs the entry of an open subfolder in the folder, unless that was done since the subfolder
    /// is in it.
    pub(super) fn synced_entry(
        &self,
        folder: &OpenFolder<R::File>,
        calls: &mut FolderCalls,
    ) -> io::Result<SyncedEntry>
        ensures entry { IfOk result (λ entry. entry.folder ≡ folder.now) }
        ensures unchanged { OnOk result (calls.new ≡ calls.old) }
        ensures refused { OnErr result (calls.new ≡ seen.Refused ∷ calls.old) }
    {
        if let Some(entry) = self.entered.get() {
            if entry.is_of(folder) {
                return Ok(entry);
            }
        }
        let mut synced = FolderCalls::new();
        if let Err(error) = synced.sync_names(&self.folder) {
            return calls.passed(Err(error));
        }
        let entry = SyncedEntry::of(folder, &synced);
        self.entered.set(Some(entry));
        Ok(entry)
    }
}
