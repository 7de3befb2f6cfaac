//! Reports which names of files are on the disk.
ghost use Rattle.std.specs.Prelude.{◌≡◌, [], IfOk, IfSome, is_some, ◌++◌, ◌∷◌};

use crate::entered_file::{EnteredFile, have_remaining};
use crate::folder_calls::FolderCalls;
use crate::folder_identity::NumberedFolder;
use crate::location::Location;
use crate::open_folder::OpenFolder;
use std::alloc::Allocator;
use std::fs::OpenFile;
use std::io;
use std::io::Error;
use std::marker::Model;

/// The files of a folder that were named before the folder was synced.
#[derive(Drop)]
struct SyncedFolder<A: Allocator> {
    folder: NumberedFolder,
    files: Vec<EnteredFile, A>,
    /// The recorded syncs of the folder and of that of the drafts.
    calls: FolderCalls,
}

impl<A: Allocator> Model for SyncedFolder<A> {
    ghost use Rattle.std.specs.Prelude.{◌≡◌, true};
    ghost use Rattle.folder_filing.specs.Synced.{FolderNames, are_synced};

    ghost Value = { FolderNames };

    ghost view = { λ f. record { folder = f.folder; files = f.files.items; calls = f.calls } };

    /// The system has synced this folder, and that of the drafts that were renamed.
    ghost invariant = { λ f. are_synced (record { folder = f.folder; files = f.files.items; calls = f.calls }) ≡ true };
}

impl<A: Allocator> SyncedFolder<A> {
    ghost use Rattle.folder_filing.specs.Synced.{is_synced_in};

    /// Syncs an open folder, in which these files were named, after that of the drafts if one of
    /// them was renamed from there. Fails if a system call fails.
    fn by_sync<F: OpenFile + Drop>(
        drafts: &OpenFolder<F>,
        folder: &OpenFolder<F>,
        files: Vec<EnteredFile, A>,
    ) -> io::Result<SyncedFolder<A>>
        requires { drafts.now.number ≡ 0 }
        ensures folder { IfOk result (λ f. f.folder ≡ folder.now) }
        ensures files { IfOk result (λ f. f.files ≡ files.items) }
    {
        let mut calls = FolderCalls::new();
        calls.sync_both(drafts, folder, have_remaining(files.as_slice()))?;
        Ok(SyncedFolder {
            folder: folder.numbered(),
            files,
            calls,
        })
    }

    /// Returns the file at this location, if it is among the files and in the folder.
    fn file_at(&self, location: Location) -> Option<EnteredFile>
        ensures covers { is_some result ≡ is_synced_in location self.now }
        ensures location { IfSome result (λ file. file.file.location ≡ location) }
        ensures number { IfSome result (λ file. file.folder.number ≡ location.folder) }
    {
        let folder = self.folder;
        if folder.number != location.folder {
            return None;
        }
        for file in &self.files {
            if file.is_at(location, folder) {
                return Some(*file);
            }
        }
        None
    }
}

/// Which of the files that were named between two syncs of names have their names on the disk, and
/// why the others have not.
///
/// It has a folder's files only if the system has synced that folder, while it was open, after they
/// were named.
#[derive(Drop)]
pub struct NamesSynced<A: Allocator> {
    folders: Vec<SyncedFolder<A>, A>,
    failure: Option<Error>,
}

impl<A: Allocator> Model for NamesSynced<A> {
    ghost use Rattle.std.specs.Prelude.{List};
    ghost use Rattle.folder_filing.specs.Synced.{FolderNames};

    ghost Value = { List FolderNames };

    ghost view = { λ n. n.folders.items };
}

impl<A: Allocator> NamesSynced<A> {
    ghost use Rattle.folder_filing.specs.Synced.{is_synced};

    /// Returns the value without any sync, which has no file.
    pub fn none(alloc: A) -> NamesSynced<A>
        ensures { result ≡ [] }
    {
        NamesSynced {
            folders: Vec::new(alloc),
            failure: None,
        }
    }

    /// Returns why names of files are not on the disk, or `None` if all are.
    pub fn failure(&self) -> Option<&Error> {
        self.failure.as_ref()
    }

    /// Records that names of files could not be synced.
    pub(crate) fn fail(&mut self, error: Error)
        ensures { self.new ≡ self.old }
    {
        self.failure = Some(error);
    }

    /// Syncs an open folder, in which these files were named, after that of the drafts if one of
    /// them was renamed from there, and records the files, or the failure.
    pub(crate) fn sync<F: OpenFile + Drop>(
        &mut self,
        drafts: &OpenFolder<F>,
        folder: &OpenFolder<F>,
        files: Vec<EnteredFile, A>,
    )
        requires { drafts.now.number ≡ 0 }
    {
        let added = match SyncedFolder::by_sync(drafts, folder, files) {
            Ok(folder) => self.add(folder),
            Err(error) => Err(error),
        };
        if let Err(error) = added {
            self.fail(error);
        }
    }

    fn add(&mut self, folder: SyncedFolder<A>) -> io::Result<()> {
        Ok(self.folders.push(folder)?)
    }

    /// Returns the file at this location, if it has its name on the disk.
    pub(crate) fn file_at(&self, location: Location) -> Option<EnteredFile>
        ensures covers { is_some result ≡ is_synced location self.now }
        ensures location { IfSome result (λ file. file.file.location ≡ location) }
        ensures number { IfSome result (λ file. file.folder.number ≡ location.folder) }
    {
        for folder in &self.folders {
            if let Some(file) = folder.file_at(location) {
                return Some(file);
            }
        }
        None
    }
}
