//! A locked folder, in which the filings of one writer create drafts and name them.
ghost use Rattle.std.specs.Prelude.{◌≡◌, ◌+◌, [], ◌∷◌, IfOk, OnOk, OnErr};
ghost use Rattle.folder_filing.specs.Naming.{Asks, IsCreated, IsOrderly, refusals, standing};

use crate::drafts::DraftPath;
use crate::entered_file::SyncedEntry;
use crate::folder_calls::{FolderCalls, create_draft};
use crate::folder_identity::FolderIdentity;
use crate::given_names::GivenNames;
use crate::group::Group;
use crate::kept_numbers::KeptNumbers;
use crate::listing::contents_of;
use crate::location::{Layout, Location};
use crate::numbers::{Numbers, NumbersFile};
use crate::open_folder::{OpenFolder, lock};
use crate::quarantine::Quarantine;
use crate::stored_file::StoredFile;
use std::alloc::{AllocError, Allocator};
use std::cell::Cell;
use std::fs;
use std::io::{self, Error, ErrorKind};
use std::rt::Files;

mod groups;
mod locations;
mod subfolders;

/// A folder that stays locked until this value is dropped. All filings over it share it, so that
/// each number is given once, in the order of the commits.
///
/// The lock belongs to the folder that was opened, but its files are reached by its path. So the
/// path is checked before a draft is created, named or discarded: if it leads to another folder, as
/// after a rename, the call fails and changes nothing. If the folder is replaced after that check,
/// the next check detects it.
#[derive(Drop)]
pub(crate) struct LockedFolder<R: Files + Alloc + Clone + Drop>
where
    R::File: StoredFile,
{
    rt: R,
    dir: String<R::A>,
    /// The open folder, which has the lock.
    folder: OpenFolder<R::File>,
    layout: Layout,
    /// The location of the last file that was found or committed, by any filing.
    last: Cell<Location>,
    /// The numbers that some filing last wrote to the file of numbers; `NONE` without such a file.
    kept: Cell<KeptNumbers>,
    /// The last subfolder whose entry in the folder was synced.
    entered: Cell<Option<SyncedEntry>>,
    group: Group<R::File, R::A>,
    /// Whether the warning that few numbers remain was returned.
    has_run_low: Cell<bool>,
    ghost own: { folder.number ≡ 0 },
}

/// Removes a draft of a killed writer. Fails with a message of its own if a folder has the draft's
/// name.
fn remove_draft<R: Files, A: Allocator>(rt: &R, draft: &DraftPath<A>) -> io::Result<()> {
    match draft.remove(rt) {
        Err(error) if error.kind() == ErrorKind::IsADirectory => Err(Error::new(
            ErrorKind::IsADirectory,
            "a folder in it has the name of a draft, DRAFT or DRAFT with digits",
        )),
        removed => removed,
    }
}

/// Removes the drafts of a killed writer: that of its first filing, and the `additional` ones.
fn remove_drafts<R: Files + Alloc>(
    rt: &R,
    dir: &str,
    additional: &[DraftPath<R::A>],
) -> io::Result<()> {
    remove_draft(rt, &DraftPath::of(rt.alloc(), dir, 1)?)?;
    for draft in additional {
        remove_draft(rt, draft)?;
    }
    Ok(())
}

impl<R: Files + Alloc + Clone + Drop> LockedFolder<R>
where
    R::File: StoredFile,
{
    /// Opens and locks an existing folder, and removes the drafts of a killed writer.
    ///
    /// Fails with `WouldBlock` if another writer has locked it, and if the folder was replaced by
    /// another one before it was locked.
    pub(crate) fn open(rt: R, dir: &str, layout: Layout) -> io::Result<LockedFolder<R>> {
        let folder = lock(&rt, dir)?;
        let contents = contents_of(&rt, dir, layout)?;
        remove_drafts(&rt, dir, contents.drafts.as_slice())?;
        let dir = String::from_str(rt.alloc(), dir)?;
        let group = Group::new(rt.alloc());
        Ok(LockedFolder {
            rt,
            dir,
            folder,
            layout,
            last: Cell::new(contents.last),
            kept: Cell::new(KeptNumbers::found(Numbers::NONE)),
            entered: Cell::new(None),
            group,
            has_run_low: Cell::new(false),
        })
    }

    /// Returns the runtime that gives access to the files of the folder.
    pub(crate) fn runtime(&self) -> &R {
        &self.rt
    }

    pub(crate) fn identity(&self) -> FolderIdentity {
        self.folder.identity()
    }

    /// Creates a file in the folder, as a draft of no filing, and renames it to this path. Fails if
    /// a system call fails; then there is no such file.
    pub(crate) fn try_rename(&self, path: &str) -> io::Result<()> {
        let draft = self.draft_path(0)?;
        drop(create_draft(&self.rt, draft.as_str())?.0);
        if let Err(error) = fs::rename(&self.rt, draft.as_str(), path) {
            let _ = draft.remove(&self.rt);
            return Err(error);
        }
        Ok(())
    }

    /// Continues the numbering after the numbers of a file of numbers.
    pub(crate) fn continue_behind(&self, kept: KeptNumbers) {
        self.last
            .set(kept.numbers().last(self.layout, self.last.get()));
        self.kept.set(kept);
    }

    /// Returns the numbering state of a new filing, whose draft has this number.
    pub(crate) fn names(
        &self,
        number: u32,
        numbers: Option<NumbersFile<R::A>>,
        has_sync: bool,
    ) -> Result<GivenNames<R::A>, AllocError>
        ensures own { IfOk result (λ names. names.own ≡ record { draft = number; reported = [] }) }
        ensures none { IfOk result (λ names. names.calls ≡ []) }
        ensures sync { IfOk result (λ names. names.has_sync ≡ has_sync) }
        ensures orderly { IfOk result IsOrderly }
    {
        let draft = self.draft_path(number)?;
        Ok(GivenNames::new(draft, self.layout, self.last.get(), numbers, has_sync))
    }

    /// Returns the path of the draft with this number.
    pub(crate) fn draft_path(&self, number: u32) -> Result<DraftPath<R::A>, AllocError>
        ensures { IfOk result (λ path. path ≡ number) }
    {
        DraftPath::of(self.rt.alloc(), self.dir.as_str(), number)
    }

    /// Fails if the path leads to another folder than the locked one.
    fn check_path(&self, calls: &mut FolderCalls) -> io::Result<()>
        ensures unchanged { OnOk result (calls.new ≡ calls.old) }
        ensures refused { OnErr result (Asks (standing calls.old) (refusals calls.old + 1) calls.old calls.new) }
    {
        calls.check_at(&self.rt, self.identity(), self.dir.as_str())
    }

    /// Returns whether the path leads to the locked folder.
    fn is_there(&self) -> bool {
        self.identity()
            .check_at(&self.rt, self.dir.as_str())
            .is_ok()
    }

    /// Creates the file of a draft, after removing a file that an earlier draft left under its
    /// name. Fails if the path leads to another folder, or a system call fails.
    pub(crate) fn create_draft(
        &self,
        draft: &DraftPath<R::A>,
        calls: &mut FolderCalls,
    ) -> io::Result<R::File>
        ensures created { OnOk result (IsCreated draft.now calls.old calls.new) }
        ensures refused { OnErr result (Asks (standing calls.old) (refusals calls.old + 1) calls.old calls.new) }
    {
        self.check_path(calls)?;
        calls.create_draft(&self.rt, draft)
    }

    /// Removes the file of an uncommitted draft, if the path still leads to the locked folder.
    pub(crate) fn discard_draft(&self, draft: &DraftPath<R::A>) {
        if self.is_there() {
            // A file that cannot be removed is removed when the next draft is created.
            let _ = draft.remove(&self.rt);
        }
    }

    /// Moves the file of an uncommitted draft to the quarantine. Returns its number there, or
    /// `None` if the quarantine is full. Fails if the path leads to another folder, or a system
    /// call fails: then the file keeps its name.
    pub(crate) fn set_aside(
        &self,
        draft: &DraftPath<R::A>,
        quarantine: &Quarantine<R>,
    ) -> io::Result<Option<u32>> {
        self.identity().check_at(&self.rt, self.dir.as_str())?;
        quarantine.take_in(draft.as_str())
    }

    fn path_of(&self, location: Location) -> Result<String<R::A>, AllocError> {
        let dir = self.dir.as_str();
        format!(in self.rt.alloc(); "{dir}/{location}")
    }
}
