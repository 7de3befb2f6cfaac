//! The writer of a folder, which makes its filings.
ghost use Rattle.std.specs.Prelude.{◌≡◌, ◌≤◌, ◌+◌, IfOk, OnOk, OnErr, true, false};
ghost use Rattle.part10.specs.Store.{nothing_filed};
ghost use Rattle.folder_filing.specs.declared.pending.Pending.TheVariants as pending;

use crate::folder_filing::FolderFiling;
use crate::location::Layout;
use crate::locked_folder::LockedFolder;
use crate::names_synced::NamesSynced;
use crate::numbers::NumbersFile;
use crate::quarantine::Quarantine;
use crate::stored_file::StoredFile;
use std::io;
use std::io::{Error, ErrorKind};
use std::marker::Model;
use std::rc::Rc;
use std::rt::Files;

/// The only writer of a folder. It makes the [`FolderFiling`]s that store files there. Each has its
/// own draft, `DRAFT`, `DRAFT2`, `DRAFT3` and so on, so that several files can be received at a
/// time. Its value in contracts is the number of filings it has made, and whether new filings sync.
///
/// The files of all filings are numbered in the order of their commits. The folder stays locked
/// until this value and all of its filings are dropped. Opening the folder removes the drafts of a
/// killed writer: `DRAFT`, and each name of `DRAFT` and decimal digits.
#[derive(Drop)]
pub struct FolderWriter<R: Files + Alloc + Clone + Drop>
where
    R::File: StoredFile,
{
    folder: Rc<LockedFolder<R>, R::A>,
    /// The file that has the greatest numbers given so far, if one is used (see
    /// [`FolderWriter::with_numbers`]).
    numbers: Option<NumbersFile<R::A>>,
    /// The quarantine to which discarded drafts are moved, if any (see
    /// [`FolderWriter::with_quarantine`]).
    quarantine: Option<Rc<Quarantine<R>, R::A>>,
    filings: u32,
    /// Whether new filings sync to the disk.
    has_sync: bool,
}

/// What a quarantine had when it was opened.
#[derive(Clone, Copy, Debug, PartialEq, Eq)]
pub struct QuarantineFound {
    /// How many drafts of a killed program were removed.
    pub removed: u32,
    /// Whether the quarantine has as many data sets as it may have.
    pub is_full: bool,
}

impl<R: Files + Alloc + Clone + Drop> Model for FolderWriter<R>
where
    R::File: StoredFile,
{
    ghost use Rattle.folder_filing.specs.States.{WriterState};

    ghost Value = { WriterState };

    ghost view = { λ w. record { filings = w.filings; has_sync = w.has_sync } };
}

impl<R: Files + Alloc + Clone + Drop> FolderWriter<R>
where
    R::File: StoredFile,
{
    /// Opens an existing folder. All files are stored in the folder itself.
    ///
    /// Fails with `WouldBlock` if another writer has locked the folder, and if a system call fails.
    pub fn open(rt: R, dir: &str) -> io::Result<FolderWriter<R>>
        ensures none { IfOk result (λ writer. writer ≡ record { filings = 0; has_sync = true }) }
    {
        FolderWriter::with_layout(rt, dir, Layout::Flat)
    }

    /// Opens an existing folder. The files are stored in subfolders of `per` files each, 1 to
    /// 9,999, named `S` and seven digits.
    ///
    /// Fails with `WouldBlock` if another writer has locked the folder, and if a system call fails.
    pub fn open_levels(rt: R, dir: &str, per: u32) -> io::Result<FolderWriter<R>>
        requires some { 1 ≤ per }
        requires most { per ≤ 9999 }
        ensures none { IfOk result (λ writer. writer ≡ record { filings = 0; has_sync = true }) }
    {
        FolderWriter::with_layout(rt, dir, Layout::Levels { per })
    }

    fn with_layout(rt: R, dir: &str, layout: Layout) -> io::Result<FolderWriter<R>>
        ensures none { IfOk result (λ writer. writer ≡ record { filings = 0; has_sync = true }) }
    {
        let alloc = rt.alloc();
        let folder = Rc::new(alloc, LockedFolder::open(rt, dir, layout)?)?;
        Ok(FolderWriter {
            folder,
            numbers: None,
            quarantine: None,
            filings: 0,
            has_sync: true,
        })
    }

    /// Turns off syncing to the disk for filings that are made after this call: commits are faster,
    /// but a loss of power may lose committed files.
    pub fn without_sync(self) -> FolderWriter<R>
        ensures same { result ≡ record self { has_sync = false } }
    {
        self.folder.set_groups(false);
        FolderWriter {
            has_sync: false,
            ..self
        }
    }

    /// Settles commits in groups, for all filings of the folder: each commit waits until it is
    /// settled (see [`Settling`](part10::Settling)), so that one sync of the folder settles
    /// several. Does nothing without syncs.
    pub fn in_groups(self) -> FolderWriter<R>
        ensures same { result ≡ self }
    {
        self.folder.set_groups(self.has_sync);
        self
    }

    /// Syncs the names of the files that were named since the last call. Returns which files have
    /// their names on the disk, and why others have not: the error of a folder that could not be
    /// synced.
    pub fn sync_names(&self) -> NamesSynced<R::A> {
        self.folder.sync_names()
    }

    /// Keeps the greatest numbers that files and subfolders were given in a file at this path,
    /// which is created if it does not exist, and gives only greater ones. So no number is given
    /// twice, even if the files are moved away and the folder is opened again. With subfolders, the
    /// next file is stored in a new one.
    ///
    /// The file is written and synced before a number that it does not cover is given: for every
    /// hundredth file of a folder without subfolders, else for each new subfolder.
    ///
    /// Fails with `InvalidData` if the file has anything other than one line of two numbers, such
    /// as `I0000100 S0000007`, and if it cannot be read or created.
    pub fn with_numbers(self, path: &str) -> io::Result<FolderWriter<R>>
        ensures same { IfOk result (λ writer. writer ≡ self) }
    {
        let file = NumbersFile::open(self.folder.runtime(), path)?;
        self.folder.continue_behind(file.kept());
        Ok(FolderWriter {
            numbers: Some(file),
            ..self
        })
    }

    /// Moves discarded drafts to the folder at this path instead of removing them, until it has
    /// `most` data sets: see [`DraftNotes::aside`](crate::DraftNotes::aside). Returns
    /// what the folder had, too. The folder is created if it is missing, with the mode 0770 less
    /// the umask.
    ///
    /// Fails if the path is that of the folder of the files, or is on another file system; with
    /// `WouldBlock` if another program has locked it; and if a system call fails.
    pub fn with_quarantine(
        self,
        dir: &str,
        most: u32,
    ) -> io::Result<(FolderWriter<R>, QuarantineFound)>
        ensures same { IfOk result (λ r. r.0 ≡ self) }
    {
        let rt = self.folder.runtime().clone()?;
        let alloc = rt.alloc();
        let (quarantine, removed) = Quarantine::open(rt, dir, most, &self.folder)?;
        let found = QuarantineFound {
            removed,
            is_full: quarantine.is_full(),
        };
        let quarantine = Rc::new(alloc, quarantine)?;
        let writer = FolderWriter {
            quarantine: Some(quarantine),
            ..self
        };
        Ok((writer, found))
    }

    /// Makes a new filing over the folder. Filings are numbered from 1, and the number is part of
    /// the draft's name.
    ///
    /// Fails if memory runs out, and with `StorageFull` after 4,294,967,295 filings.
    pub fn filing(&mut self) -> io::Result<FolderFiling<R>>
        ensures counted { OnOk result (self.new ≡ record self.old { filings = self.old.filings + 1 }) }
        ensures failed { OnErr result (self.new ≡ self.old) }
        ensures sync { IfOk result (λ filing. filing.names.has_sync ≡ self.old.has_sync) }
        ensures number { IfOk result (λ filing. filing.names.own.draft ≡ self.new.filings) }
        ensures empty { IfOk result (λ filing. filing.contents ≡ nothing_filed) }
        ensures settled { IfOk result (λ filing. filing.pending ≡ pending.Settled) }
    {
        let Some(number) = self.filings.checked_add(1) else {
            return Err(Error::new(ErrorKind::StorageFull, "all numbers of drafts are in use"));
        };
        let numbers = match &self.numbers {
            Some(file) => Some(file.duplicate(self.folder.runtime().alloc())?),
            None => None,
        };
        let quarantine = match &self.quarantine {
            Some(quarantine) => Some(quarantine.clone()?),
            None => None,
        };
        let names = self.folder.names(number, numbers, self.has_sync)?;
        let filing = FolderFiling::over(self.folder.clone()?, names, quarantine)?;
        self.filings = number;
        Ok(filing)
    }
}
