//! The system calls of a filing over a folder, recorded for contracts.
//!
//! Only this module names files in a folder and removes named ones; other modules remove drafts or
//! move them to a quarantine. Each method makes its system calls and records their outcome, so that
//! contracts can require, for example, that a name is checked before a rename, or that each failure
//! is due to a failed call.
ghost use Rattle.std.specs.Prelude.{◌≡◌, ◌+◌, List, [], ◌∷◌, ◌++◌, None, Some, IfOk, OnOk, OnErr, reverse, true, false};
ghost use Rattle.folder_filing.specs.declared.call.Call.{Call as SeenCall};
ghost use Rattle.folder_filing.specs.declared.call.Call.TheVariants as seen;

use crate::call::Call;
use crate::drafts::DraftPath;
use crate::entered_file::EnteredFile;
use crate::folder_identity::FolderIdentity;
use crate::location::{Layout, Location};
use crate::names_synced::NamesSynced;
use crate::naming::{Obstacle, Target, check_free, is_without_links, obstacle_of};
use crate::numbers::NumbersFile;
use crate::open_folder::OpenFolder;
use element::history::History;
use element::traced::Traced;
use std::alloc::{AllocError, Allocator};
use std::fs::{File, OpenFile};
use std::io::{Error, ErrorKind, Write};
use std::marker::Model;
use std::rt::Files;
use std::{fs, io};

/// The list of system calls so far, the newest first. It is a ghost value: contracts can name it,
/// the program cannot read it, except which file was created last.
#[derive(Drop)]
pub struct FolderCalls {
    /// The calls, the oldest first.
    history: History<Call>,
    /// The file that was created last.
    file: Option<FolderIdentity>,
}

impl Model for FolderCalls {
    ghost use Rattle.std.specs.Prelude.{◌≡◌, List, reverse};
    ghost use Rattle.folder_filing.specs.Naming.{created_file};
    ghost use Rattle.folder_filing.specs.declared.call.Call.{Call as SeenCall};

    ghost Value = { List SeenCall };

    ghost view = { λ c. reverse c.history };

    ghost invariant = { λ c. c.file ≡ created_file (reverse c.history) };
}

/// Removes a file; does nothing if there is none.
pub(crate) fn remove_remaining<R: Files>(rt: &R, path: &str) -> io::Result<()> {
    match fs::remove_file(rt, path) {
        Err(error) if error.kind() == ErrorKind::NotFound => Ok(()),
        result => result,
    }
}

/// Creates the file of a draft, after removing a file that an earlier draft left under its name.
/// Returns it with its identity. After an error there is no such file, unless it cannot be removed.
pub(crate) fn create_draft<R: Files>(rt: &R, path: &str) -> io::Result<(R::File, FolderIdentity)> {
    let file = match File::create_new(rt, path) {
        Err(error) if error.kind() == ErrorKind::AlreadyExists => {
            remove_remaining(rt, path)?;
            File::create_new(rt, path)?
        }
        result => result?,
    };
    match file.metadata() {
        Ok(found) => Ok((file, FolderIdentity::of(&found))),
        Err(error) => {
            let _ = remove_remaining(rt, path);
            Err(error)
        }
    }
}

/// Creates a folder; does nothing if something has its path.
fn create_folder<R: Files>(rt: &R, path: &str) -> io::Result<()> {
    match fs::create_dir(rt, path) {
        Err(error) if error.kind() == ErrorKind::AlreadyExists => Ok(()),
        result => result,
    }
}

impl FolderCalls {
    ghost use Rattle.folder_filing.specs.Naming.{Asks, IsCreated, IsOwnFile, created_file, standing, refusals};
    ghost use Rattle.folder_filing.specs.Numbers.{Keeps, is_covered};
    ghost use Rattle.folder_filing.specs.Folders.{after_drafts, entering};
    ghost use Rattle.folder_filing.specs.Settling.{IsSyncedBy};
    ghost use Rattle.folder_filing.specs.Synced.{is_synced};
    ghost use Rattle.folder_filing.specs.machine.Naming.{TriesLeave};

    /// Creates an empty list of calls.
    pub(crate) fn new() -> FolderCalls
        ensures { result ≡ [] }
    {
        FolderCalls {
            history: History::new(),
            file: None,
        }
    }

    /// Appends a call as the newest, which created no file.
    fn push(&mut self, call: &Call)
        requires { created_file (call.now ∷ self.old) ≡ created_file self.old }
        ensures { self.new ≡ call.now ∷ self.old }
    {
        self.history.push(call);
    }

    /// Returns the result `given` of a system call, and records a failed call if it is an error.
    pub(crate) fn passed<T, E>(&mut self, given: Result<T, E>) -> Result<T, E>
        ensures same { result ≡ given }
        ensures unchanged { OnOk result (self.new ≡ self.old) }
        ensures refused { OnErr result (self.new ≡ seen.Refused ∷ self.old) }
    {
        if given.is_err() {
            self.push(&Call::Refused);
        }
        given
    }

    /// Returns the outcome of an attempt to name a file from the result `given` of its system call:
    /// `None` if it succeeded, which records `call`, or the [`Obstacle`]. Records any other error
    /// as a failed call and returns it.
    fn tried(
        &mut self,
        call: Call,
        given: io::Result<()>,
        target: Target<'_>,
    ) -> io::Result<Option<Obstacle>>
        requires { created_file (call ∷ self.old) ≡ created_file self.old }
        ensures { TriesLeave call result self.old self.new }
    {
        match given {
            Ok(()) => {
                self.push(&call);
                Ok(None)
            }
            Err(error) => match obstacle_of(&error, target) {
                Some(obstacle) => Ok(Some(obstacle)),
                None => {
                    self.push(&Call::Refused);
                    Err(error)
                }
            },
        }
    }

    /// Returns the text, or the error that memory ran out, which is recorded as a failed call.
    pub(crate) fn text<A: Allocator>(
        &mut self,
        text: Result<String<A>, AllocError>,
    ) -> io::Result<String<A>>
        ensures unchanged { OnOk result (self.new ≡ self.old) }
        ensures refused { OnErr result (self.new ≡ seen.Refused ∷ self.old) }
    {
        match self.passed(text) {
            Ok(text) => Ok(text),
            Err(error) => Err(Error::from(error)),
        }
    }

    /// Fails if the path leads to another folder than the one with this identity, or if its
    /// metadata cannot be read. Either failure is recorded.
    pub(crate) fn check_at<R: Files>(
        &mut self,
        rt: &R,
        identity: FolderIdentity,
        path: &str,
    ) -> io::Result<()>
        ensures unchanged { OnOk result (self.new ≡ self.old) }
        ensures refused { OnErr result (Asks (standing self.old) (refusals self.old + 1) self.old self.new) }
    {
        let found = self.passed(FolderIdentity::at(rt, path))?;
        if found == identity {
            return Ok(());
        }
        self.push(&Call::Replaced);
        Err(FolderIdentity::replaced())
    }

    /// Creates the file of a draft, after removing a file that an earlier draft left under its
    /// name.
    pub(crate) fn create_draft<R: Files + Alloc>(
        &mut self,
        rt: &R,
        draft: &DraftPath<R::A>,
    ) -> io::Result<R::File>
        ensures created { OnOk result (IsCreated draft.now self.old self.new) }
        ensures refused { OnErr result (self.new ≡ seen.Refused ∷ self.old) }
    {
        let (file, identity) = self.passed(create_draft(rt, draft.as_str()))?;
        self.created(draft.number(), identity);
        Ok(file)
    }

    /// Records that the file with this identity was created for the draft with this number.
    fn created(&mut self, draft: u32, file: FolderIdentity)
        ensures { self.new ≡ seen.Created draft file ∷ self.old }
    {
        self.file = Some(file);
        self.history.push(&Call::Created { draft, file });
    }

    /// Writes all of the bytes to the file of a draft, or records the failure.
    pub(crate) fn write_all<W: Write>(
        &mut self,
        draft: &mut Traced<W>,
        bytes: &[u8],
    ) -> io::Result<()>
        ensures traced { OnOk result (draft.new.trace.bytes ≡ draft.old.trace.bytes ++ bytes.now) }
        ensures failed { OnErr result (draft.new.trace ≡ draft.old.trace) }
        ensures unchanged { OnOk result (self.new ≡ self.old) }
        ensures refused { OnErr result (self.new ≡ seen.Refused ∷ self.old) }
    {
        self.passed(draft.write_all(bytes))
    }

    /// Syncs the file of a draft to the disk, and records the sync, or the failure.
    pub(crate) fn sync_draft<F: OpenFile>(&mut self, draft: &Traced<F>) -> io::Result<()>
        ensures written { OnOk result (self.new ≡ seen.Written ∷ self.old) }
        ensures refused { OnErr result (self.new ≡ seen.Refused ∷ self.old) }
    {
        self.passed(draft.sync_all())?;
        self.push(&Call::Written);
        Ok(())
    }

    /// Syncs an open folder, in which files were named, to the disk, and records the sync, or the
    /// failure.
    pub(crate) fn sync_names<F: OpenFile + Drop>(
        &mut self,
        folder: &OpenFolder<F>,
    ) -> io::Result<()>
        ensures synced { OnOk result (self.new ≡ seen.Synced folder.now ∷ self.old) }
        ensures refused { OnErr result (self.new ≡ seen.Refused ∷ self.old) }
    {
        self.passed(folder.sync())?;
        self.push(&Call::Synced(folder.numbered()));
        Ok(())
    }

    /// Syncs an open folder, in which files were named, to the disk, after the folder of the drafts
    /// if one of them was renamed from there. Records the syncs, or the failure.
    pub(crate) fn sync_both<F: OpenFile + Drop>(
        &mut self,
        drafts: &OpenFolder<F>,
        folder: &OpenFolder<F>,
        has_remaining: bool,
    ) -> io::Result<()>
        ensures synced { OnOk result (self.new ≡ seen.Synced folder.now ∷ after_drafts has_remaining drafts.now self.old) }
        ensures refused { OnErr result (Asks (standing self.old) (refusals self.old + 1) self.old self.new) }
    {
        if has_remaining {
            self.sync_names(drafts)?;
        }
        self.sync_names(folder)
    }

    /// Returns whether this sync of names has the file at this location, and if so records the sync
    /// of its folder.
    pub(crate) fn has_synced<A: Allocator>(
        &mut self,
        synced: &NamesSynced<A>,
        location: Location,
    ) -> bool
        ensures covers { result ≡ is_synced location synced.now }
        ensures has { result ≡ true → IsSyncedBy location self.old self.new }
        ensures has_not { result ≡ false → self.new ≡ self.old }
    {
        let Some(file) = synced.file_at(location) else {
            return false;
        };
        self.enter(file);
        self.push(&Call::Synced(file.folder()));
        true
    }

    /// Records that a file, the last one named, is in a subfolder whose own entry is on the disk.
    pub(crate) fn enter(&mut self, file: EnteredFile)
        ensures { self.new ≡ entering file.file.location file.folder self.old }
    {
        let location = file.location();
        if location.folder != 0 {
            self.push(&Call::Entered {
                location,
                folder: file.folder().identity,
            });
        }
    }

    /// Records that the commit of the file at this location is reported.
    pub(crate) fn report(&mut self, location: Location)
        ensures { self.new ≡ seen.Reported location ∷ self.old }
    {
        self.push(&Call::Reported(location));
    }

    /// Creates a folder for files, unless something has its path. Records a failure.
    pub(crate) fn create_folder<R: Files>(&mut self, rt: &R, path: &str) -> io::Result<()>
        ensures unchanged { OnOk result (self.new ≡ self.old) }
        ensures refused { OnErr result (self.new ≡ seen.Refused ∷ self.old) }
    {
        self.passed(create_folder(rt, path))
    }

    /// Makes sure that the file of numbers covers the number of this location, with `has_sync` on
    /// the disk, as [`NumbersFile::keep`] does, and records a failure.
    pub(crate) fn keep<R: Files + Alloc>(
        &mut self,
        rt: &R,
        file: &mut NumbersFile<R::A>,
        layout: Layout,
        location: Location,
        has_sync: bool,
    ) -> io::Result<()>
        ensures kept { OnOk result (is_covered layout file.new.kept.numbers location ≡ true) }
        ensures on_disk { has_sync ≡ true → OnOk result (file.new.kept.is_on_disk ≡ true) }
        ensures keeps { Keeps file.old.kept.numbers file.new.kept.numbers }
        ensures unchanged { OnOk result (self.new ≡ self.old) }
        ensures refused { OnErr result (self.new ≡ seen.Refused ∷ self.old) }
    {
        self.passed(file.keep(rt, layout, location, has_sync))
    }

    /// Gives the file of a draft the target name as a second name, by a hard link. Returns `None`,
    /// or the obstacle: `NoLinks` on a file system without hard links. Other errors are recorded
    /// and returned.
    pub(crate) fn link<R: Files + Alloc>(
        &mut self,
        rt: &R,
        draft: &DraftPath<R::A>,
        target: Target<'_>,
    ) -> io::Result<Option<Obstacle>>
        ensures { TriesLeave (seen.Linked draft.now target.entry.location) result self.old self.new }
    {
        let call = Call::Linked {
            draft: draft.number(),
            location: target.location,
        };
        match fs::hard_link(rt, draft.as_str(), target.path) {
            Err(error) if is_without_links(&error) => Ok(Some(Obstacle::NoLinks)),
            given => self.tried(call, given, target),
        }
    }

    /// Checks that the target name is free. Returns `None`, or the obstacle. Other errors are
    /// recorded and returned.
    pub(crate) fn look<R: Files>(
        &mut self,
        rt: &R,
        target: Target<'_>,
    ) -> io::Result<Option<Obstacle>>
        ensures { TriesLeave (seen.SeenFree target.entry.location) result self.old self.new }
    {
        self.tried(
            Call::SeenFree(target.location),
            check_free(rt, target.path),
            target,
        )
    }

    /// Renames the file of a draft to the target name. Returns `None`, or the obstacle. Other
    /// errors are recorded and returned.
    pub(crate) fn rename<R: Files + Alloc>(
        &mut self,
        rt: &R,
        draft: &DraftPath<R::A>,
        target: Target<'_>,
    ) -> io::Result<Option<Obstacle>>
        ensures { TriesLeave (seen.Renamed draft.now target.entry.location) result self.old self.new }
    {
        let call = Call::Renamed {
            draft: draft.number(),
            location: target.location,
        };
        let given = fs::rename(rt, draft.as_str(), target.path);
        self.tried(call, given, target)
    }

    /// Removes the target name of the filing's own file, which was just named. Fails, and removes
    /// nothing, if another file has the name: another program has moved the filing's file away.
    /// Returns the identity of the file. Records the removal, or the failure.
    pub(crate) fn remove<R: Files>(
        &mut self,
        rt: &R,
        target: Target<'_>,
    ) -> io::Result<FolderIdentity>
        ensures removed { IfOk result (λ file. (self.new ≡ seen.Removed target.entry.location (Some file) ∷ self.old) × (created_file self.old ≡ Some file)) }
        ensures refused { OnErr result (self.new ≡ seen.Refused ∷ self.old) }
    {
        let found = self.passed(FolderIdentity::of_entry(rt, target.path))?;
        if !self.is_own(found) {
            return self.passed(Err(FolderIdentity::replaced()));
        }
        self.take(rt, target, found)?;
        Ok(found)
    }

    /// Removes the target name from the filing's own file, which also has its draft name. If another
    /// program moved the target's folder away, the name is gone with it, and another file at the
    /// target's path stays: then it returns `None`, else the identity of the file. Records a removal
    /// in both cases, or the failure.
    pub(crate) fn remove_link<R: Files>(
        &mut self,
        rt: &R,
        target: Target<'_>,
    ) -> io::Result<Option<FolderIdentity>>
        ensures removed { IfOk result (λ file. (self.new ≡ seen.Removed target.entry.location file ∷ self.old) × IsOwnFile file self.old) }
        ensures refused { OnErr result (self.new ≡ seen.Refused ∷ self.old) }
    {
        match FolderIdentity::of_entry(rt, target.path) {
            Ok(found) if self.is_own(found) => {
                self.take(rt, target, found)?;
                return Ok(Some(found));
            }
            Err(error) if error.kind() != ErrorKind::NotFound => return self.passed(Err(error)),
            _ => {}
        }
        self.push(&Call::Removed {
            location: target.location,
            file: None,
        });
        Ok(None)
    }

    /// Returns whether this is the file that was created last.
    fn is_own(&self, found: FolderIdentity) -> bool
        ensures { result ≡ true → created_file self.now ≡ Some found }
    {
        match self.file {
            Some(file) => file == found,
            None => false,
        }
    }

    /// Removes the target name, which was found to be that of the filing's own file, and records the
    /// removal, or the failure.
    fn take<R: Files>(&mut self, rt: &R, target: Target<'_>, file: FolderIdentity) -> io::Result<()>
        requires own { created_file self.old ≡ Some file }
        ensures removed { OnOk result (self.new ≡ seen.Removed target.entry.location (Some file) ∷ self.old) }
        ensures refused { OnErr result (self.new ≡ seen.Refused ∷ self.old) }
    {
        self.passed(fs::remove_file(rt, target.path))?;
        self.push(&Call::Removed {
            location: target.location,
            file: Some(file),
        });
        Ok(())
    }
}
