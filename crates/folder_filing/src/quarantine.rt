//! The quarantine: a folder that keeps the data sets of refused stores.

use crate::folder_calls::remove_remaining;
use crate::folder_identity::FolderIdentity;
use crate::locked_folder::LockedFolder;
use crate::naming::check_free;
use crate::occupancy::Occupancy;
use crate::open_folder::{OpenFolder, lock};
use crate::quarantine_names::{QuarantineKind, QuarantineName};
use crate::stored_file::StoredFile;
use std::alloc::{AllocError, Allocator};
use std::cell::Cell;
use std::fs::{DirBuilder, File};
use std::io::{Error, ErrorKind, Write};
use std::os::unix::fs::{DirBuilderExt, MetadataExt};
use std::rt::Files;
use std::{fs, io};

/// The number of the system error `EXDEV`: a file cannot be renamed to another file system.
const OTHER_FILE_SYSTEM: i32 = 18;

/// A folder to which uncommitted drafts are moved, and which stays locked until this value is
/// dropped. All filings of a writer share it.
///
/// A draft is moved there by a rename, as `000001.part`; then it is kept as `000001.dcm` with a
/// text `000001.txt`, or removed. No file is overwritten, and no symbolic link is followed.
#[derive(Drop)]
pub(crate) struct Quarantine<R: Files + Alloc + Clone + Drop>
where
    R::File: StoredFile,
{
    rt: R,
    dir: String<R::A>,
    /// The open folder, which has the lock.
    folder: OpenFolder<R::File>,
    occupancy: Cell<Occupancy>,
    /// The second in which the folder was last counted, by the clock that sets the times of files;
    /// 0 before.
    counted: Cell<i64>,
}

/// What a quarantine has.
#[derive(Drop)]
struct QuarantineContents<A: Allocator> {
    /// How many data sets it keeps.
    kept: u32,
    /// The greatest number in any name.
    last: u32,
    /// The numbers of the drafts that were neither kept nor removed.
    pending: Vec<u32, A>,
}

impl<A: Allocator> QuarantineContents<A> {
    /// Records a file with this name.
    fn note(&mut self, name: QuarantineName) -> Result<(), AllocError> {
        self.last = self.last.max(name.number);
        match name.kind {
            QuarantineKind::Pending => self.pending.push(name.number)?,
            QuarantineKind::Data => self.kept = self.kept.saturating_add(1),
            QuarantineKind::Text => {}
        }
        Ok(())
    }
}

/// Lists a quarantine. Ignores other names. Fails if it cannot be listed to its end.
fn contents_of<R: Files + Alloc + Clone + Drop>(
    rt: &R,
    dir: &str,
) -> io::Result<QuarantineContents<R::A>> {
    let mut contents = QuarantineContents {
        kept: 0,
        last: 0,
        pending: Vec::new(rt.alloc()),
    };
    for entry in fs::read_dir(rt, dir)? {
        match entry {
            Ok(entry) => {
                if let Some(name) = QuarantineName::read(entry.file_name()) {
                    contents.note(name)?;
                }
            }
            Err(error) if error.kind() == ErrorKind::InvalidFilename => {}
            Err(error) => return Err(error),
        }
    }
    Ok(contents)
}

/// Returns the path of a file in a quarantine.
fn path_of<A: Allocator>(
    alloc: A,
    dir: &str,
    number: u32,
    kind: QuarantineKind,
) -> Result<String<A>, AllocError> {
    QuarantineName { number, kind }.path(alloc, dir)
}

/// Removes the drafts of a killed program. Returns how many there were.
fn remove_pending<R: Files + Alloc>(rt: &R, dir: &str, numbers: &[u32]) -> io::Result<u32> {
    let mut count: u32 = 0;
    for number in numbers {
        let path = path_of(rt.alloc(), dir, *number, QuarantineKind::Pending)?;
        remove_remaining(rt, path.as_str())?;
        count = count.saturating_add(1);
    }
    Ok(count)
}

/// Creates a file with this text. Fails if something has its name. After a failed write there is no
/// such file.
fn create_text<R: Files>(rt: &R, path: &str, text: &str) -> io::Result<()> {
    let mut file = File::create_new(rt, path)?;
    if let Err(error) = file.write_all(text.as_bytes()) {
        let _ = remove_remaining(rt, path);
        return Err(error);
    }
    Ok(())
}

/// Creates a folder for its owner and the group, unless something has its path.
fn create<R: Files>(rt: &R, dir: &str) -> io::Result<()> {
    match DirBuilder::new().mode(0o770).create(rt, dir) {
        Err(error) if error.kind() == ErrorKind::AlreadyExists => Ok(()),
        result => result,
    }
}

/// Fails if the path leads to the folder in which files are stored.
fn check_other<R: Files>(rt: &R, dir: &str, folder: FolderIdentity) -> io::Result<()> {
    if FolderIdentity::at(rt, dir)? == folder {
        return Err(Error::new(ErrorKind::InvalidInput, "it is the folder that files go to"));
    }
    Ok(())
}

/// Returns the error of a trial rename, with its own message for another file system.
fn explained(error: Error) -> Error {
    if error.raw_os_error() == Some(OTHER_FILE_SYSTEM) {
        return Error::new(
            ErrorKind::Unsupported,
            "it is on another file system than the folder that files go to",
        );
    }
    error
}

impl<R: Files + Alloc + Clone + Drop> Quarantine<R>
where
    R::File: StoredFile,
{
    /// Opens and locks a quarantine of at most `most` data sets for the drafts of `folder`, and
    /// removes the drafts of a killed program. Returns how many those were, too. Creates the
    /// quarantine if it is missing.
    ///
    /// Fails if the path leads to `folder` itself, if the quarantine's parent folder is missing, if
    /// a file cannot be renamed to it from `folder`, and with `WouldBlock` if another program has
    /// locked it.
    pub(crate) fn open(
        rt: R,
        dir: &str,
        most: u32,
        folder: &LockedFolder<R>,
    ) -> io::Result<(Quarantine<R>, u32)> {
        create(&rt, dir)?;
        check_other(&rt, dir, folder.identity())?;
        let own = lock(&rt, dir)?;
        let contents = contents_of(&rt, dir)?;
        let removed = remove_pending(&rt, dir, contents.pending.as_slice())?;
        let trial = path_of(rt.alloc(), dir, 0, QuarantineKind::Pending)?;
        folder.try_rename(trial.as_str()).map_err(explained)?;
        remove_remaining(&rt, trial.as_str())?;
        let dir = String::from_str(rt.alloc(), dir)?;
        let quarantine = Quarantine {
            rt,
            dir,
            folder: own,
            occupancy: Cell::new(Occupancy {
                most,
                kept: contents.kept,
                pending: 0,
                last: contents.last,
            }),
            counted: Cell::new(0),
        };
        Ok((quarantine, removed))
    }

    /// Returns whether as many data sets are kept as allowed.
    pub(crate) fn is_full(&self) -> bool {
        self.occupancy.get().is_full()
    }

    fn path(&self, number: u32, kind: QuarantineKind) -> Result<String<R::A>, AllocError> {
        path_of(self.rt.alloc(), self.dir.as_str(), number, kind)
    }

    /// Fails if the path leads to another folder than the locked one.
    fn check_path(&self) -> io::Result<()> {
        self.folder.identity().check_at(&self.rt, self.dir.as_str())
    }

    /// Counts the kept data sets again, unless the folder was last changed in a second before that
    /// of the last count. The second of the count is that in which this draft was last written.
    fn count_anew(&self, draft: &str) -> io::Result<()> {
        if fs::metadata(&self.rt, self.dir.as_str())?.mtime() < self.counted.get() {
            return Ok(());
        }
        let now = fs::metadata(&self.rt, draft)?.mtime();
        let contents = contents_of(&self.rt, self.dir.as_str())?;
        let counted = self.occupancy.get().counted(contents.kept, contents.last);
        self.occupancy.set(counted);
        self.counted.set(now);
        Ok(())
    }

    /// Counts this draft as pending, and returns its number, or `None` if the quarantine is full. A
    /// full quarantine is counted again first, since files may have been moved away.
    fn take_number(&self, draft: &str) -> io::Result<Option<u32>> {
        if self.is_full() {
            self.count_anew(draft)?;
        }
        match self.occupancy.get().with_pending() {
            Some(occupancy) => {
                self.occupancy.set(occupancy);
                Ok(Some(occupancy.last))
            }
            None => Ok(None),
        }
    }

    /// Removes a draft from the count.
    fn leave(&self) {
        self.occupancy.set(self.occupancy.get().without_pending());
    }

    /// Moves the file of a draft to the name with this number.
    fn rename_draft(&self, draft: &str, number: u32) -> io::Result<()> {
        let path = self.path(number, QuarantineKind::Pending)?;
        check_free(&self.rt, path.as_str())?;
        fs::rename(&self.rt, draft, path.as_str())
    }

    /// Moves the file of a draft to the quarantine, and returns its number, or `None` if the
    /// quarantine is full. After an error the file keeps its name.
    pub(crate) fn take_in(&self, draft: &str) -> io::Result<Option<u32>> {
        self.check_path()?;
        let Some(number) = self.take_number(draft)? else {
            return Ok(None);
        };
        if let Err(error) = self.rename_draft(draft, number) {
            self.leave();
            return Err(error);
        }
        Ok(Some(number))
    }

    /// Gives the draft with this number its final name, and writes this text next to it. After an
    /// error neither file exists.
    fn name(&self, number: u32, text: &str) -> io::Result<()> {
        let data = self.path(number, QuarantineKind::Data)?;
        check_free(&self.rt, data.as_str())?;
        let pending = self.path(number, QuarantineKind::Pending)?;
        let about = self.path(number, QuarantineKind::Text)?;
        create_text(&self.rt, about.as_str(), text)?;
        if let Err(error) = fs::rename(&self.rt, pending.as_str(), data.as_str()) {
            let _ = remove_remaining(&self.rt, about.as_str());
            return Err(error);
        }
        Ok(())
    }

    /// Keeps the draft with this number, with this text next to it. Returns whether the quarantine
    /// is full then. After an error the draft is removed, unless the path leads to another folder.
    pub(crate) fn keep(&self, number: u32, text: &str) -> io::Result<bool> {
        let kept = match self.check_path() {
            Ok(()) => self.name(number, text),
            Err(error) => Err(error),
        };
        if let Err(error) = kept {
            let _ = self.remove(number);
            return Err(error);
        }
        self.occupancy.set(self.occupancy.get().with_kept());
        Ok(self.is_full())
    }

    /// Removes the draft with this number, if the path still leads to the locked folder.
    pub(crate) fn remove(&self, number: u32) -> io::Result<()> {
        self.leave();
        self.check_path()?;
        let path = self.path(number, QuarantineKind::Pending)?;
        remove_remaining(&self.rt, path.as_str())
    }
}
