//! Syncs the names of several files together.
ghost use Rattle.std.specs.Prelude.{◌≡◌, ◌<◌, ◌+◌, ◌∷◌, OnOk, OnErr, drop};
ghost use Rattle.folder_filing.specs.Naming.{IsOrderly, refusals, standing};
ghost use Rattle.folder_filing.specs.Settling.{IsNamedLast};
ghost use Rattle.folder_filing.specs.declared.call.Call.TheVariants as seen;
ghost use Rattle.folder_filing.specs.declared.pending.Pending.TheVariants as pending;

use super::LockedFolder;
use crate::entered_file::EnteredFile;
use crate::folder_calls::FolderCalls;
use crate::folder_identity::FolderIdentity;
use crate::given_names::GivenNames;
use crate::group::NamedFolder;
use crate::location::Location;
use crate::names_synced::NamesSynced;
use crate::naming::Target;
use crate::open_folder::OpenFolder;
use crate::stored_file::StoredFile;
use std::io;
use std::rt::Files;

impl<R: Files + Alloc + Clone + Drop> LockedFolder<R>
where
    R::File: StoredFile,
{
    /// Returns whether commits are settled in groups.
    pub(crate) fn has_groups(&self) -> bool {
        self.group.is_used.get()
    }

    /// Sets whether commits are settled in groups from now on.
    pub(crate) fn set_groups(&self, is_used: bool) {
        self.group.is_used.set(is_used);
    }

    /// Records that the name of a file must be synced, and keeps its subfolder open until then,
    /// even if its path changes.
    pub(super) fn leave_unsynced(
        &self,
        file: EnteredFile,
        open: Option<OpenFolder<R::File>>,
        calls: &mut FolderCalls,
    ) -> io::Result<()>
        ensures unchanged { OnOk result (calls.new ≡ calls.old) }
        ensures refused { OnErr result (calls.new ≡ seen.Refused ∷ calls.old) }
    {
        let folder = calls.passed(NamedFolder::of(self.rt.alloc(), open, file))?;
        calls.passed(self.group.add(self.rt.alloc(), folder))
    }

    /// Syncs the folders of all files that were named since the last call, after a rename to a
    /// subfolder first that of the drafts. A folder that cannot be synced affects only its own
    /// files.
    pub(crate) fn sync_names(&self) -> NamesSynced<R::A> {
        let mut synced = NamesSynced::none(self.rt.alloc());
        for folder in self.group.end(self.rt.alloc()) {
            let NamedFolder { open, files } = folder;
            match &open {
                Some(open) => synced.sync(&self.folder, open, files),
                None => synced.sync(&self.folder, &self.folder, files),
            }
        }
        synced
    }

    /// Removes the file at this location, the last one that the filing has named, because its name
    /// could not be synced, and whose commit was not reported. Fails if another file has its name.
    pub(crate) fn remove_at(
        &self,
        location: Location,
        names: &mut GivenNames<R::A>,
    ) -> io::Result<FolderIdentity>
        requires newest { ∥ IsNamedLast (pending.Named location) names.old.calls ∥₁ }
        ensures sync { names.new.has_sync ≡ names.old.has_sync }
        ensures own { names.new.own ≡ names.old.own }
        ensures removed { OnOk result (standing names.new.calls ≡ drop 1 (standing names.old.calls)) }
        ensures settled { OnOk result (refusals names.new.calls ≡ refusals names.old.calls) }
        ensures remaining { OnErr result (standing names.new.calls ≡ standing names.old.calls) }
        ensures refused { OnErr result (refusals names.old.calls < refusals names.new.calls) }
        ensures orderly { ∥ IsOrderly names.old ∥₁ → ∥ IsOrderly names.new ∥₁ }
    {
        self.check_path(&mut names.calls)?;
        let path = names.calls.text(self.path_of(location))?;
        let target = Target {
            location,
            path: path.as_str(),
            layout: self.layout,
            has_sync: names.has_sync,
            folder: None,
            may_miss: false,
        };
        names.calls.remove(&self.rt, target)
    }
}
