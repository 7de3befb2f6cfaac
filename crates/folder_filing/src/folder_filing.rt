//! A [`Filing`] that stores files in a folder.
ghost use Rattle.std.specs.Prelude.{◌≡◌, ◌≤◌, ◌<◌, ◌+◌, [], ◌∷◌, ◌++◌, None, Some, ◌⊎◌, IfOk, OnOk, OnErr, is_err, is_some, true, false};
ghost use Rattle.folder_filing.specs.Naming.{IsCommitted, IsCreated, IsNameSynced, IsOrderly, IsWritten, LeavesNames, WasRefused, refusals, standing};
ghost use Rattle.folder_filing.specs.Settling.{is_waiting};
ghost use Rattle.part10.specs.Store.{LeavesStore, appended, committed, nothing_filed, or_nothing, stepped, store_of, without_draft};
ghost use Rattle.folder_filing.specs.declared.pending.Pending.TheVariants as pending;

use crate::aside::SetAside;
use crate::draft_size::DraftSize;
use crate::folder_writer::FolderWriter;
use crate::given_names::GivenNames;
use crate::location::Location;
use crate::locked_folder::LockedFolder;
use crate::notes::DraftNotes;
use crate::pending::Pending;
use crate::quarantine::Quarantine;
use crate::stored_file::StoredFile;
use crate::writeback::Writeback;
use element::count::Count;
use element::history::History;
use element::trace::Trace;
use element::traced::Traced;
use part10::{Filing, FilingFailed, Settling};
use std::alloc::AllocError;
use std::io;
use std::io::{Error, ErrorKind};
use std::marker::Model;
use std::rc::Rc;
use std::rt::Files;

mod groups;

/// The error message of a call while the last commit is not settled.
const WAITS: &str = "the last file is not settled";

/// A [`Filing`] that stores each committed draft as a file of a folder, named `I` and seven digits.
///
/// The draft is a file of the same folder: `DRAFT` for the first filing of a [`FolderWriter`],
/// `DRAFT2` for the second and so on. The folder stays locked against other writers until this
/// value, its `FolderWriter` and all other filings of that writer are dropped. No file is ever
/// overwritten.
///
/// If the folder is renamed and another one gets its path, which may have a writer of its own, each
/// `begin` and `commit` fails, and neither they nor `discard` change anything there. Each call
/// checks the path first; if the folder is replaced after that check, the next call detects it.
///
/// A commit syncs the draft to the disk (`sync_all`), then names it, then syncs the folder, so that
/// a committed file survives a loss of power. The name is made by a hard link, which fails if the
/// name is in use. On a file system without hard links the draft is renamed, after a check that the
/// name is free.
///
/// With [`FolderWriter::in_groups`] a commit only hands the draft over, without a name, to be
/// settled later ([`Settling`](part10::Settling)). Until then each `begin` and `commit` fails.
///
/// Its value in contracts: the bytes that were written to each committed file and to the draft;
/// whether there is a draft; the number of failed calls; the names given, with the system calls
/// that gave them; and the state of the last commit. What survives a loss of power is proved by a
/// model of the disk ([`laws`](crate::laws)). Tests, not contracts, check how a
/// [`Location`](crate::Location) is spelled as a file name, and that disks do as the model says.
#[derive(Drop)]
pub struct FolderFiling<R: Files + Alloc + Clone + Drop>
where
    R::File: StoredFile,
{
    folder: Rc<LockedFolder<R>, R::A>,
    draft: Option<Traced<R::File>>,
    /// The file of the last commit, while the file has no name.
    handed: Option<Traced<R::File>>,
    pending: Pending,
    /// The writeback of the draft.
    writeback: Writeback,
    /// For contracts: the bytes that were written to each file that this filing has committed,
    /// oldest first.
    kept: History<Trace>,
    committed: u32,
    dropped: u32,
    failures: Count,
    names: GivenNames<R::A>,
    notes: Rc<DraftNotes<R>, R::A>,
    /// The quarantine to which discarded drafts are moved, if any.
    quarantine: Option<Rc<Quarantine<R>, R::A>>,
    size: DraftSize,
}

impl<R: Files + Alloc + Clone + Drop> Model for FolderFiling<R>
where
    R::File: StoredFile,
{
    ghost use Rattle.std.specs.Prelude.{length, map, option_map};
    ghost use Rattle.folder_filing.specs.Naming.{IsOrderly};
    ghost use Rattle.folder_filing.specs.Settling.{AreReported, IsNamedLast};
    ghost use Rattle.folder_filing.specs.States.{FolderState};

    ghost Value = { FolderState };

    ghost view = { λ f. record {
      contents = record { files = map (λ t. t.bytes) f.kept; draft = option_map (λ d. d.trace.bytes) f.draft; failures = f.failures };
      names = f.names;
      pending = f.pending;
    } };

    ghost invariant = { λ f. ∥ IsOrderly f.names ∥₁ × ∥ IsNamedLast f.pending f.names.calls ∥₁ × AreReported (length (map (λ t. t.bytes) f.kept)) f.pending f.names };
}

impl<R: Files + Alloc + Clone + Drop> FolderFiling<R>
where
    R::File: StoredFile,
{
    /// Opens an existing folder for a single filing, which stores all files in the folder itself.
    ///
    /// Fails with `WouldBlock` if another writer has locked the folder, and if a system call fails.
    pub fn open(rt: R, dir: &str) -> io::Result<FolderFiling<R>>
        ensures empty { IfOk result (λ filing. filing.contents ≡ nothing_filed) }
        ensures settled { IfOk result (λ filing. filing.pending ≡ pending.Settled) }
    {
        FolderWriter::open(rt, dir)?.filing()
    }

    /// Opens an existing folder for a single filing, which stores the files in subfolders of `per`
    /// files each, 1 to 9,999, named `S` and seven digits.
    ///
    /// Fails with `WouldBlock` if another writer has locked the folder, and if a system call fails.
    pub fn open_levels(rt: R, dir: &str, per: u32) -> io::Result<FolderFiling<R>>
        requires some { 1 ≤ per }
        requires most { per ≤ 9999 }
        ensures empty { IfOk result (λ filing. filing.contents ≡ nothing_filed) }
        ensures settled { IfOk result (λ filing. filing.pending ≡ pending.Settled) }
    {
        FolderWriter::open_levels(rt, dir, per)?.filing()
    }

    /// Creates a filing over this folder. `names` is the state of its numbering, with its draft,
    /// and `quarantine` receives discarded drafts, if there is one.
    pub(crate) fn over(
        folder: Rc<LockedFolder<R>, R::A>,
        names: GivenNames<R::A>,
        quarantine: Option<Rc<Quarantine<R>, R::A>>,
    ) -> io::Result<FolderFiling<R>>
        requires orderly { ∥ IsOrderly names ∥₁ }
        requires none { names.own.reported ≡ [] }
        ensures empty { IfOk result (λ filing. filing.contents ≡ nothing_filed) }
        ensures settled { IfOk result (λ filing. filing.pending ≡ pending.Settled) }
        ensures names { IfOk result (λ filing. filing.names ≡ names) }
    {
        let notes = Rc::new(folder.runtime().alloc(), DraftNotes::new())?;
        Ok(FolderFiling {
            folder,
            draft: None,
            handed: None,
            pending: Pending::Settled,
            writeback: Writeback::new(None),
            kept: History::new(),
            committed: 0,
            dropped: 0,
            failures: Count::new(),
            names,
            notes,
            quarantine,
            size: DraftSize::EMPTY,
        })
    }

    /// Turns off syncing to the disk: commits are faster, but a loss of power may lose committed
    /// files.
    pub fn without_sync(mut self) -> FolderFiling<R>
        ensures same { result ≡ record self { names = record self.names { has_sync = false } } }
    {
        self.names.has_sync = false;
        self
    }

    /// Returns how many drafts this filing has committed, at most `u32::MAX`. In groups a commit is
    /// counted when it is settled.
    pub fn committed(&self) -> u32
        ensures orderly { ∥ IsOrderly self.now.names ∥₁ }
    {
        self.committed
    }

    /// Returns how many drafts of this filing were not committed, at most `u32::MAX`: discarded,
    /// replaced by `begin`, dropped by a failed call, or lost before they were settled.
    pub fn dropped(&self) -> u32 {
        self.dropped
    }

    /// Returns the notes that this filing makes for the log, such as the location of the last
    /// committed file and the error of the last failed call. They are shared: later calls of the
    /// filing change them.
    ///
    /// Fails if the reference count of the notes would overflow.
    pub fn notes(&self) -> Result<Rc<DraftNotes<R>, R::A>, AllocError> {
        self.notes.clone()
    }

    /// Moves the file of the draft to the quarantine, if there is one that is not full, and notes
    /// the move, or why it failed. Does nothing if nothing was appended to the draft.
    fn set_aside(&self) {
        let (Some(quarantine), Some(_), Some(data)) = (
            &self.quarantine,
            &self.draft,
            self.size.data(),
        ) else {
            return;
        };
        match self.folder.set_aside(&self.names.draft, quarantine) {
            Ok(Some(number)) => match quarantine.clone() {
                Ok(quarantine) => self
                    .notes
                    .set_aside(SetAside::new(quarantine, number, data)),
                Err(_) => {
                    let _ = quarantine.remove(number);
                }
            },
            Ok(None) => {}
            Err(error) => self.notes.aside_error.set(Some(error)),
        }
    }

    fn drop_draft(&mut self)
        ensures same_names { self.new.names ≡ self.old.names }
        ensures same_pending { self.new.pending ≡ self.old.pending }
        ensures draft { self.new.contents.draft ≡ None }
        ensures same_files { self.new.contents.files ≡ self.old.contents.files }
        ensures same_count { self.new.contents.failures ≡ self.old.contents.failures }
    {
        if self.draft.take().is_some() {
            self.dropped = self.dropped.saturating_add(1);
            self.folder.discard_draft(&self.names.draft);
        }
    }

    fn begin_draft(&mut self) -> io::Result<()>
        ensures created { OnOk result (IsCreated self.old.names.own.draft self.old.names.calls self.new.names.calls) }
        ensures refused { OnErr result (refusals self.old.names.calls < refusals self.new.names.calls) }
        ensures sync { self.new.names.has_sync ≡ self.old.names.has_sync }
        ensures own { self.new.names.own ≡ self.old.names.own }
        ensures same_names { standing self.new.names.calls ≡ standing self.old.names.calls }
        ensures same_pending { self.new.pending ≡ self.old.pending }
        ensures draft { OnOk result (self.new.contents.draft ≡ Some []) }
        ensures same_files { self.new.contents.files ≡ self.old.contents.files }
        ensures same_count { self.new.contents.failures ≡ self.old.contents.failures }
    {
        let has_sync = self.names.has_sync;
        self.drop_draft();
        let path = &self.names.draft;
        let file = self.folder.create_draft(path, &mut self.names.calls)?;
        let descriptor = if has_sync { file.descriptor() } else { None };
        self.writeback = Writeback::new(descriptor);
        self.draft = Some(Traced::new(file));
        self.size = DraftSize::EMPTY;
        Ok(())
    }

    /// Syncs the draft to the disk, unless syncing is turned off.
    fn sync_draft(&mut self) -> io::Result<()>
        requires draft { is_some self.old.contents.draft ≡ true }
        ensures same { self.new.contents ≡ self.old.contents }
        ensures same_pending { self.new.pending ≡ self.old.pending }
        ensures same_names { standing self.new.names.calls ≡ standing self.old.names.calls }
        ensures written { OnOk result (IsWritten self.new.names.has_sync self.new.names.calls) }
        ensures sync { self.new.names.has_sync ≡ self.old.names.has_sync }
        ensures own { self.new.names.own ≡ self.old.names.own }
        ensures unchanged { OnOk result (refusals self.new.names.calls ≡ refusals self.old.names.calls) }
        ensures refused { OnErr result (refusals self.old.names.calls < refusals self.new.names.calls) }
    {
        match &self.draft {
            Some(draft) if self.names.has_sync => self.names.calls.sync_draft(draft),
            _ => Ok(()),
        }
    }

    /// Notes the location of a file that was committed.
    fn note(&self, location: Location) {
        self.notes.location.set(Some(location));
        if self.folder.runs_low(location) {
            self.notes.low.set(Some(location));
        }
    }

    /// Names the draft and reports its commit: for contracts it is a file from now on. Returns its
    /// location.
    fn name_draft(&mut self) -> io::Result<Location>
        requires draft { is_some self.old.contents.draft ≡ true }
        requires none_waits { self.old.pending ≡ pending.Settled }
        requires written { IsWritten self.old.names.has_sync self.old.names.calls }
        ensures same_pending { self.new.pending ≡ self.old.pending }
        ensures next { OnOk result (IsCommitted self.old.names self.new.names) }
        ensures settled { OnOk result (refusals self.new.names.calls ≡ refusals self.old.names.calls) }
        ensures remaining { OnErr result (LeavesNames (standing self.old.names.calls) (standing self.new.names.calls)) }
        ensures refused { OnErr result (WasRefused self.old.names self.new.names) }
        ensures sync { self.new.names.has_sync ≡ self.old.names.has_sync }
        ensures own { OnErr result (self.new.names.own ≡ self.old.names.own) }
        ensures synced { self.old.names.has_sync ≡ true → OnOk result (IsNameSynced self.new.names.calls) }
        ensures named { OnOk result (self.new.contents.files ≡ self.old.contents.files ++ or_nothing self.old.contents.draft ∷ []) }
        ensures failed { OnErr result (self.new.contents.files ≡ self.old.contents.files) }
        ensures same_count { self.new.contents.failures ≡ self.old.contents.failures }
    {
        let location = self.folder.name_draft(false, &mut self.names)?;
        self.names.report(location);
        if let Some(draft) = &self.draft {
            self.kept.push(draft.trace());
        }
        Ok(location)
    }

    /// Removes the draft name of a file that was just committed, which it still has after a hard
    /// link, so that nothing is written to a committed file under that name.
    fn remove_old_name(&self) {
        let _ = self.names.draft.remove(self.folder.runtime());
    }

    fn commit_draft(&mut self) -> io::Result<()>
        requires draft { is_some self.old.contents.draft ≡ true }
        requires none_waits { self.old.pending ≡ pending.Settled }
        ensures same_pending { self.new.pending ≡ self.old.pending }
        ensures next { OnOk result (IsCommitted self.old.names self.new.names) }
        ensures settled { OnOk result (refusals self.new.names.calls ≡ refusals self.old.names.calls) }
        ensures remaining { OnErr result (LeavesNames (standing self.old.names.calls) (standing self.new.names.calls)) }
        ensures refused { OnErr result (WasRefused self.old.names self.new.names) }
        ensures sync { self.new.names.has_sync ≡ self.old.names.has_sync }
        ensures own { OnErr result (self.new.names.own ≡ self.old.names.own) }
        ensures synced { self.old.names.has_sync ≡ true → OnOk result (IsNameSynced self.new.names.calls) }
        ensures committed { OnOk result (self.new.contents.files ≡ self.old.contents.files ++ or_nothing self.old.contents.draft ∷ []) }
        ensures failed { OnErr result (self.new.contents.files ≡ self.old.contents.files) }
        ensures draft { OnOk result (self.new.contents.draft ≡ None) }
        ensures same_count { self.new.contents.failures ≡ self.old.contents.failures }
    {
        self.sync_draft()?;
        let location = self.name_draft()?;
        self.draft = None;
        self.remove_old_name();
        self.note(location);
        self.committed = self.committed.saturating_add(1);
        Ok(())
    }

    /// Records the error in the notes, drops the draft and counts one failure.
    fn fail(&mut self, error: Error)
        ensures same_names { self.new.names ≡ self.old.names }
        ensures same_pending { self.new.pending ≡ self.old.pending }
        ensures draft { self.new.contents.draft ≡ None }
        ensures same_files { self.new.contents.files ≡ self.old.contents.files }
        ensures counted { self.new.contents.failures ≡ self.old.contents.failures + 1 }
    {
        self.notes.error.set(Some(error));
        self.drop_draft();
        self.failures.add_one();
    }
}

impl<R: Files + Alloc + Clone + Drop> Filing for FolderFiling<R>
where
    R::File: StoredFile,
{
    ghost store = { λ f. store_of f.contents };

    /// Starts an empty draft, as a new file. Fails only if a system call failed, memory ran out,
    /// the path of the folder leads to another folder, or the last commit is not settled.
    fn begin(&mut self) -> Result<(), FilingFailed>
        ensures leaves { LeavesStore without_draft true result (store_of self.old.contents) (store_of self.new.contents) }
        ensures created { OnOk result (IsCreated self.old.names.own.draft self.old.names.calls self.new.names.calls) }
        ensures refused { is_waiting self.old.pending ≡ false → OnErr result (refusals self.old.names.calls < refusals self.new.names.calls) }
        ensures has_pending { is_waiting self.old.pending ≡ true → is_err result ≡ true }
        ensures sync { self.new.names.has_sync ≡ self.old.names.has_sync }
        ensures own { self.new.names.own ≡ self.old.names.own }
        ensures same_names { standing self.new.names.calls ≡ standing self.old.names.calls }
        ensures same_pending { self.new.pending ≡ self.old.pending }
    {
        if self.pending.is_waiting() {
            self.fail(Error::new(ErrorKind::ResourceBusy, WAITS));
            return Err(FilingFailed);
        }
        if let Err(error) = self.begin_draft() {
            self.fail(error);
            return Err(FilingFailed);
        }
        Ok(())
    }

    /// Appends the bytes to the file of the draft. Fails only if a system call failed.
    fn append(&mut self, bytes: &[u8]) -> Result<(), FilingFailed>
        requires { (store_of self.old.contents).has_draft ≡ true }
        ensures leaves { LeavesStore (appended bytes.now) true result (store_of self.old.contents) (store_of self.new.contents) }
        ensures unchanged { OnOk result (self.new.names ≡ self.old.names) }
        ensures refused { OnErr result (refusals self.old.names.calls < refusals self.new.names.calls) }
        ensures sync { self.new.names.has_sync ≡ self.old.names.has_sync }
        ensures own { self.new.names.own ≡ self.old.names.own }
        ensures same_names { standing self.new.names.calls ≡ standing self.old.names.calls }
        ensures same_pending { self.new.pending ≡ self.old.pending }
    {
        let written = match &mut self.draft {
            Some(draft) => self.names.calls.write_all(draft, bytes),
            None => Err(Error::from(ErrorKind::NotFound)),
        };
        if let Err(error) = written {
            self.fail(error);
            return Err(FilingFailed);
        }
        self.writeback.appended(bytes.len());
        self.size = self.size.with(bytes.len());
        Ok(())
    }

    /// Gives the draft a name that no file of this filing had before and that no other file has.
    /// Fails only if a system call failed, memory ran out, the path of the folder leads to another
    /// folder, or all numbers are in use.
    ///
    /// In groups it hands the draft over without a name, and fails only if the last commit is not
    /// settled.
    fn commit(&mut self) -> Result<(), FilingFailed>
        requires { (store_of self.old.contents).has_draft ≡ true }
        ensures leaves { LeavesStore committed false result (store_of self.old.contents) (store_of self.new.contents) }
        ensures next { self.new.pending ≡ pending.Settled → OnOk result (IsCommitted self.old.names self.new.names) }
        ensures sync { self.new.names.has_sync ≡ self.old.names.has_sync }
        ensures own { OnErr result (self.new.names.own ≡ self.old.names.own) }
        ensures synced { self.old.names.has_sync ≡ true → self.new.pending ≡ pending.Settled → OnOk result (IsNameSynced self.new.names.calls) }
        ensures settled { OnOk result (refusals self.new.names.calls ≡ refusals self.old.names.calls) }
        ensures remaining { OnErr result (LeavesNames (standing self.old.names.calls) (standing self.new.names.calls)) }
        ensures refused { is_waiting self.old.pending ≡ false → OnErr result (WasRefused self.old.names self.new.names) }
        ensures has_pending { is_waiting self.old.pending ≡ true → is_err result ≡ true }
        ensures handed { is_waiting self.new.pending ≡ true → (self.new.names ≡ self.old.names) }
        ensures pending { OnOk result ((self.new.pending ≡ pending.Settled) ⊎ (self.new.pending ≡ pending.Unnamed)) }
        ensures same_pending { OnErr result (self.new.pending ≡ self.old.pending) }
    {
        if !matches!(self.pending, Pending::Settled) {
            self.fail(Error::new(ErrorKind::ResourceBusy, WAITS));
            return Err(FilingFailed);
        }
        if self.has_groups() {
            self.hand_over();
            return Ok(());
        }
        if let Err(error) = self.commit_draft() {
            self.fail(error);
            return Err(FilingFailed);
        }
        Ok(())
    }

    /// Drops the draft, if there is one. With a quarantine its file is moved there instead of being
    /// removed; nothing else depends on the move.
    fn discard(&mut self)
        ensures leaves { store_of self.new.contents ≡ stepped without_draft false (store_of self.old.contents) }
        ensures same_names { self.new.names ≡ self.old.names }
        ensures same_pending { self.new.pending ≡ self.old.pending }
    {
        self.set_aside();
        self.drop_draft();
    }
}
